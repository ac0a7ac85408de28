// The blocks of a round's replies, and the stripe that they decode to (document 01, "What a coordinator does"): a block is put in its place;
// blocks are gathered, decoded and checked; an operation on one block takes that block alone, or keeps it while the others are decoded.
// inner: call `coordinator::take_reply`
#![tactic(auto)]

ghost use Rattle.std.specs.Prelude.{cond, true, ◌≡◌, ◌+◌, ◌*◌, ◌≤◌, ◌<◌, length};
ghost use Rattle.coord_blocks.specs.Blocks.{stripe_from, agreeing, given_stripe, stored_stripe};
ghost use Rattle.coord_blocks.specs.Workers.{InPlace, HandedOn, BlocksReady};
ghost use Rattle.coord_record.specs.Records.{on_block};
ghost use Rattle.erasure.specs.Code.{block_of, blocks_of, with_block};
ghost use Rattle.interpolate.specs.Values.{PointSet};
ghost use Rattle.settings.specs.Ranges.{max_bricks};

use coord_record::Op;
use settings::{Code, MAX_SIZE};

// Block b of a row of blocks.
#[tactic(auto, using(crate::proofs::Laws::BufferLaws::block_cut, crate::proofs::Laws::BufferLaws::cut_length))]
fn block_at(size: usize, b: usize, blocks: &[u8]) -> &[u8]
    requires { b * size + size ≤ length blocks.now }
    ensures value { result.now ≡ block_of size blocks.now b }
    ensures block_length { length result.now ≡ size }
{
    let at = b * size;
    &blocks[at..at + size]
}

// A reply's block in its place.
#[tactic(auto, using(crate::proofs::Laws::BufferLaws::place_is))]
pub fn place(size: usize, b: usize, block: &[u8], blocks: &mut [u8])
    requires { (length block.now ≡ size) × (b * size + size ≤ length blocks.old) }
    ensures { blocks.new ≡ with_block size blocks.old b block.now }
{
    let at = b * size;
    byte_lists::copy(block, &mut blocks[at..at + size]);
}

// The blocks of these bricks, one after the other.
#[tactic(auto, using(crate::proofs::Laws::BufferLaws::gathering))]
fn gather(size: usize, bricks: &[u8], blocks: &[u8], out: &mut [u8])
    requires few { length bricks.now ≤ max_bricks }
    requires room { length out.old ≡ length bricks.now * size }
    requires in_place { InPlace (length bricks.now) size bricks.now blocks.now }
    ensures { out.new ≡ blocks_of size blocks.now bricks.now }
{
    for (i, brick) in bricks.iter().enumerate() {
        place(size, i, block_at(size, usize::from(*brick), blocks), out);
    }
}

// Room for the blocks of any bricks.
const ROOM: usize = settings::MAX_BRICKS * MAX_SIZE;

// The stripe that the blocks of m bricks decode to.
#[tactic(auto, using(crate::proofs::Laws::BufferLaws::front_is), unfolding(crate::specs::Blocks::stripe_from))]
fn decode_from(code: Code, bricks: &[u8], blocks: &[u8], stripe: &mut [u8])
    requires bricks_len { length bricks.now ≡ code.m }
    requires stripe_len { length stripe.old ≡ code.m * code.size }
    requires point_set { PointSet bricks.now }
    requires in_place { InPlace code.m code.size bricks.now blocks.now }
    ensures { stripe.new ≡ stripe_from code.m code.size bricks.now blocks.now }
{
    let mut room = [0u8; ROOM];
    let end = code.m * code.size;
    gather(code.size, bricks, blocks, &mut room[..end]);
    erasure::decode_into(code.m, code.size, bricks, &room[..end], stripe)
}

// Whether the blocks of these bricks agree; if so, the stripe that they decode to, else nothing is written.
#[tactic(auto, using(crate::proofs::Laws::BufferLaws::front_is), unfolding(crate::specs::Blocks::stripe_from, crate::specs::Blocks::agreeing))]
fn check_from(m: usize, size: usize, bricks: &[u8], blocks: &[u8], stripe: &mut [u8]) -> bool
    requires handed_on { HandedOn m size (length bricks.now) bricks.now blocks.now }
    requires stripe_len { length stripe.old ≡ m * size }
    ensures value { result ≡ agreeing m size bricks.now blocks.now }
    ensures stripe_after { stripe.new ≡ cond result (stripe_from m size bricks.now blocks.now) stripe.old }
{
    let mut room = [0u8; ROOM];
    let end = bricks.len() * size;
    gather(size, bricks, blocks, &mut room[..end]);
    erasure::decode_checked(m, size, bricks, &room[..end], stripe)
}

// The stripe of a read of one round: decoded from the targets; of a read of one block that block alone, from its brick.
#[tactic(auto, using(crate::proofs::Laws::BufferLaws::targets), unfolding(crate::specs::Blocks::given_stripe))]
pub fn take_given(code: Code, op: Op, blocks: &[u8], stripe: &mut [u8])
    requires { BlocksReady code.n code.m code.size op (length blocks.now) (length stripe.old) }
    ensures { stripe.new ≡ given_stripe code.n code.m code.size op blocks.now stripe.old }
{
    if coord_record::on_block(op.kind) {
        place(
            code.size,
            op.first,
            block_at(code.size, op.first, blocks),
            stripe,
        );
    } else {
        let row = coord_tally::target_row(code.n, code.m, op.first);
        decode_from(code, &row[..code.m], blocks, stripe);
    }
}

// As `check_from`, but block j of the stripe stays as it was: it is kept aside meanwhile.
fn check_around(
    m: usize,
    size: usize,
    j: usize,
    bricks: &[u8],
    blocks: &[u8],
    stripe: &mut [u8],
) -> bool
    requires handed_on { HandedOn m size (length bricks.now) bricks.now blocks.now }
    requires stripe_len { (j < m) × (length stripe.old ≡ m * size) }
    ensures value { result ≡ agreeing m size bricks.now blocks.now }
    ensures stripe_after { stripe.new ≡ cond result (with_block size (stripe_from m size bricks.now blocks.now) j
        (block_of size stripe.old j)) stripe.old }
{
    let mut aside = [0u8; MAX_SIZE];
    byte_lists::copy(block_at(size, j, stripe), &mut aside[..size]);
    let agree = check_from(m, size, bricks, blocks, stripe);
    if agree {
        place(size, j, &aside[..size], stripe);
    }
    agree
}

// What a recovery stores: the stripe that the blocks of these bricks decode to; of a block write with its own block in its place.
// Whether the blocks agree; if not, nothing is written.
#[tactic(auto, unfolding(crate::specs::Blocks::stored_stripe, coord_record::specs::Records::on_block))]
pub fn decode_stored(
    m: usize,
    size: usize,
    op: Op,
    bricks: &[u8],
    blocks: &[u8],
    stripe: &mut [u8],
) -> bool
    requires handed_on { HandedOn m size (length bricks.now) bricks.now blocks.now }
    requires first_lt_m { (on_block op.kind ≡ true → op.first < m) × (length stripe.old ≡ m * size) }
    ensures value { result ≡ agreeing m size bricks.now blocks.now }
    ensures stripe_after { stripe.new ≡ cond result (stored_stripe size op stripe.old (stripe_from m size bricks.now blocks.now))
        stripe.old }
{
    if op.kind == coord_record::WRITING_BLOCK {
        return check_around(m, size, op.first, bricks, blocks, stripe);
    }
    check_from(m, size, bricks, blocks, stripe)
}

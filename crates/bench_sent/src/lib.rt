// What the bench has sent, kept in lent buffers: item k has row k of the numbers and row k of the bytes, laid out as `bench_limits` says.
// inner: call `bench_player::play_line`
#![tactic(auto)]

ghost use Rattle.std.specs.Prelude.{◌≡◌, ◌+◌, ◌*◌, ◌%◌, ◌≤◌, ◌<◌, length, replicate};
ghost use Rattle.register.specs.Runs.{message, reply};
ghost use Rattle.bench_sent.specs.Sent.{number_at, is_reply, flags_at, message_at, reply_at};
ghost use Rattle.bench_sent.specs.Workers.{Added, Coded, Sends, message_row, reply_row, numbers_with, bytes_with, old_with, no_flags};
ghost use Rattle.bench_sent.specs.Workers.{One, Picked};
ghost use Rattle.bench_limits.specs.Limits.{bench_size, row_numbers, row_bytes, brick_place};

use bench_limits::{
    BLOCK_PLACE, BRICK_PLACE, COMPARISON_PLACE, DATA_BLOCK_PLACE, FLAGS, FOUND_PLACE, HELD_PLACE,
    KIND_PLACE, MAX_PLACE, MESSAGE_TAG, OLD_BLOCK_PLACE, OLD_TIME_PLACE, REPLY_TAG, ROUND_PLACE,
    ROW_BYTES, ROW_NUMBERS, SIZE, STRIPE_PLACE, TAG_PLACE, TIME_PLACE, YES_PLACE,
};
use message::{Message, Reply};

// stays: the rows are two lent buffers with places by number, as `Sent.item_at` reads them and `play_line` is lent them.
// Row k: its numbers; and of its bytes the flags, and the block behind them.
#[tactic(auto, unfolding(crate::specs::Workers::numbers_with, crate::specs::Workers::bytes_with), using(byte_lists::proofs::Laws::PutLaws::put_mid_lem))]
fn put_row(
    k: usize,
    row: [u64; ROW_NUMBERS],
    flags: [u8; FLAGS],
    block: &[u8],
    numbers: &mut [u64],
    bytes: &mut [u8],
)
    requires { (length block.now ≤ bench_size) × (k * row_numbers + row_numbers ≤ length numbers.old) × (k * row_bytes + row_bytes ≤ length bytes.old) }
    ensures numbers_after { numbers.new ≡ numbers_with k row numbers.old }
    ensures bytes_after { bytes.new ≡ bytes_with k flags block.now bytes.old }
{
    let first = k * ROW_NUMBERS;
    numbers[first..first + ROW_NUMBERS].copy_from_slice(&row);
    let at = k * ROW_BYTES;
    let from = at + BLOCK_PLACE;
    bytes[at..at + FLAGS].copy_from_slice(&flags);
    bytes[from..from + block.len()].copy_from_slice(block);
}

// A message to a brick, kept in row k with its block and the old block.
#[tactic(auto, unfolding(crate::specs::Workers::old_with, crate::specs::Workers::message_row), using(byte_lists::proofs::Laws::PutLaws::put_mid_lem))]
pub fn put_message(
    k: usize,
    brick: usize,
    msg: Message,
    block: &[u8],
    old: &[u8],
    numbers: &mut [u64],
    bytes: &mut [u8],
)
    requires block_len_bound { (length block.now ≤ bench_size) × (k * row_numbers + row_numbers ≤ length numbers.old)
        × (k * row_bytes + row_bytes ≤ length bytes.old) }
    requires len { length old.now ≡ length block.now }
    ensures numbers_after { numbers.new ≡ numbers_with k (message_row brick msg) numbers.old }
    ensures bytes_after { bytes.new ≡ old_with k old.now (bytes_with k msg.targets block.now bytes.old) }
    ensures added { Added k block.now numbers.old bytes.old
        numbers.new bytes.new (message brick msg block.now old.now) }
{
    let row = [
        MESSAGE_TAG,
        brick as u64,
        u64::from(msg.kind),
        msg.time,
        msg.round,
        msg.max,
        0,
        0,
        msg.stripe as u64,
        msg.old,
        msg.block as u64,
        0,
        0,
        0,
        0,
        0,
    ];
    put_row(k, row, msg.targets, block, numbers, bytes);
    let from = k * ROW_BYTES + OLD_BLOCK_PLACE;
    bytes[from..from + old.len()].copy_from_slice(old);
}

// A reply, kept in row k.
#[tactic(auto, unfolding(crate::specs::Workers::reply_row, crate::specs::Workers::no_flags, byte_lists::specs::Lists::zeros))]
pub fn put_reply(k: usize, r: Reply, block: &[u8], numbers: &mut [u64], bytes: &mut [u8])
    requires { (length block.now ≤ bench_size) × (k * row_numbers + row_numbers ≤ length numbers.old) × (k * row_bytes + row_bytes ≤ length bytes.old) }
    ensures numbers_after { numbers.new ≡ numbers_with k (reply_row r) numbers.old }
    ensures bytes_after { bytes.new ≡ bytes_with k no_flags block.now bytes.old }
    ensures added { Added k block.now numbers.old bytes.old
        numbers.new bytes.new (reply r block.now) }
{
    let row = [
        REPLY_TAG,
        r.brick as u64,
        u64::from(r.kind),
        r.time,
        r.round,
        r.found,
        u64::from(r.yes),
        u64::from(r.held),
        r.stripe as u64,
        0,
        0,
        u64::from(r.comparison),
        0,
        0,
        0,
        0,
    ];
    put_row(k, row, [0; FLAGS], block, numbers, bytes);
}

// One number of row k.
#[tactic(auto, unfolding(crate::specs::Sent::number_at))]
fn number_at(numbers: &[u64], k: usize, i: usize) -> u64
    requires { (i < row_numbers) × (k * row_numbers + row_numbers ≤ length numbers.now) }
    ensures { result ≡ number_at numbers.now k i }
{
    numbers[k * ROW_NUMBERS + i]
}

// Whether row k is a reply.
#[tactic(auto, unfolding(crate::specs::Sent::is_reply))]
pub fn is_reply(numbers: &[u64], k: usize) -> bool
    requires { k * row_numbers + row_numbers ≤ length numbers.now }
    ensures { result ≡ is_reply numbers.now k }
{
    number_at(numbers, k, TAG_PLACE) != MESSAGE_TAG
}

// The brick that a message goes to.
pub fn brick_at(numbers: &[u64], k: usize) -> usize
    requires { k * row_numbers + row_numbers ≤ length numbers.now }
    ensures { result ≡ number_at numbers.now k brick_place }
{
    number_at(numbers, k, BRICK_PLACE) as usize
}

// One number of row k, as a byte.
fn byte_at(numbers: &[u64], k: usize, i: usize) -> u8
    requires { (i < row_numbers) × (k * row_numbers + row_numbers ≤ length numbers.now) }
    ensures { result ≡ number_at numbers.now k i % 256 }
{
    (number_at(numbers, k, i) % 256) as u8
}

// The target flags of row k.
#[tactic(auto, unfolding(crate::specs::Sent::flags_at))]
fn flags_at(bytes: &[u8], k: usize) -> [u8; FLAGS]
    requires { k * row_bytes + row_bytes ≤ length bytes.now }
    ensures { result ≡ flags_at bytes.now k }
{
    let at = k * ROW_BYTES;
    let mut flags = [0u8; FLAGS];
    flags.copy_from_slice(&bytes[at..at + FLAGS]);
    flags
}

// The message of row k.
#[tactic(auto, unfolding(crate::specs::Sent::message_at))]
pub fn message_at(numbers: &[u64], bytes: &[u8], k: usize) -> Message
    requires { (k * row_numbers + row_numbers ≤ length numbers.now) × (k * row_bytes + row_bytes ≤ length bytes.now) }
    ensures { result ≡ message_at numbers.now bytes.now k }
{
    Message {
        kind: byte_at(numbers, k, KIND_PLACE),
        stripe: number_at(numbers, k, STRIPE_PLACE) as usize,
        time: number_at(numbers, k, TIME_PLACE),
        round: number_at(numbers, k, ROUND_PLACE),
        max: number_at(numbers, k, MAX_PLACE),
        old: number_at(numbers, k, OLD_TIME_PLACE),
        block: number_at(numbers, k, DATA_BLOCK_PLACE) as usize,
        targets: flags_at(bytes, k),
    }
}

// The reply of row k.
#[tactic(auto, unfolding(crate::specs::Sent::reply_at))]
pub fn reply_at(numbers: &[u64], k: usize) -> Reply
    requires { k * row_numbers + row_numbers ≤ length numbers.now }
    ensures { result ≡ reply_at numbers.now k }
{
    Reply {
        kind: byte_at(numbers, k, KIND_PLACE),
        brick: brick_at(numbers, k),
        stripe: number_at(numbers, k, STRIPE_PLACE) as usize,
        time: number_at(numbers, k, TIME_PLACE),
        round: number_at(numbers, k, ROUND_PLACE),
        yes: number_at(numbers, k, YES_PLACE) == 1,
        found: number_at(numbers, k, FOUND_PLACE),
        held: number_at(numbers, k, HELD_PLACE) == 1,
        comparison: byte_at(numbers, k, COMPARISON_PLACE),
    }
}

// What a coordinator's routine worked on, for what is sent: the reply blocks, the stripe, and the blocks of a Write.
#[derive(Clone, Copy)]
pub struct Sources<'a> {
    pub blocks: &'a [u8],
    pub stripe: &'a [u8],
    pub coded: &'a [u8],
}

// The blocks that go with a message to brick j: with a Write brick j's, and zeros for the old block; with Modify the new block of the stripe and
// the old one of the reply blocks; with any other zeros.
#[tactic(auto, using(crate::proofs::Laws::SendLaws::picked_write, crate::proofs::Laws::SendLaws::picked_modify, crate::proofs::Laws::SendLaws::picked_zeros))]
fn blocks_for<'a>(
    j: usize,
    size: usize,
    msg: Message,
    sources: Sources<'a>,
    zeros: &'a [u8],
) -> (&'a [u8], &'a [u8])
    requires coded { Coded (j + 1) size msg sources.blocks.now sources.stripe.now sources.coded.now }
    requires zeros { zeros.now ≡ replicate size 0 }
    ensures { Picked j size msg sources.entry.blocks.now sources.entry.stripe.now sources.entry.coded.now result.0.now result.1.now }
{
    match msg.kind {
        message::WRITE => {
            let at = j * size;
            (&sources.coded[at..at + size], zeros)
        }
        message::MODIFY => {
            let at = msg.block * size;
            (
                &sources.stripe[at..at + size],
                &sources.blocks[at..at + size],
            )
        }
        _ => (zeros, zeros),
    }
}

// A message to brick j in a row, with its blocks.
#[tactic(auto, using(crate::proofs::Laws::SendLaws::zeros_cut, crate::proofs::Laws::SendLaws::one_by))]
fn send_one(
    at: usize,
    j: usize,
    size: usize,
    msg: Message,
    sources: Sources,
    numbers: &mut [u64],
    bytes: &mut [u8],
)
    requires size_le_bench_size { (size ≤ bench_size) × (at * row_numbers + row_numbers ≤ length numbers.old)
        × (at * row_bytes + row_bytes ≤ length bytes.old) }
    requires coded { Coded (j + 1) size msg sources.blocks.now sources.stripe.now sources.coded.now }
    ensures { One at j size msg sources.entry.blocks.now sources.entry.stripe.now sources.entry.coded.now numbers.old bytes.old
        numbers.new bytes.new }
{
    let zeros = [0u8; SIZE];
    let (block, old) = blocks_for(j, size, msg, sources, &zeros[..size]);
    put_message(at, j, msg, block, old, numbers, bytes)
}

// A message to each of n bricks, in n rows from row k on.
#[tactic(auto, using(crate::proofs::Laws::SendLaws::coded_fewer, crate::proofs::Laws::SendLaws::sends_none, crate::proofs::Laws::SendLaws::sends_more))]
pub fn send_all(
    n: usize,
    size: usize,
    k: usize,
    msg: Message,
    sources: Sources,
    numbers: &mut [u64],
    bytes: &mut [u8],
)
    requires size_le_bench_size { (size ≤ bench_size) × ((k + n) * row_numbers ≤ length numbers.old) × ((k + n) * row_bytes ≤ length bytes.old) }
    requires coded { Coded n size msg sources.blocks.now sources.stripe.now sources.coded.now }
    ensures sends { Sends k n size msg sources.entry.blocks.now sources.entry.stripe.now sources.entry.coded.now numbers.old bytes.old
        numbers.new bytes.new }
    ensures numbers_len_unchanged { (length numbers.new ≡ length numbers.old) × (length bytes.new ≡ length bytes.old) }
{
    for j in 0..n {
        send_one(k + j, j, size, msg, sources, numbers, bytes);
    }
}

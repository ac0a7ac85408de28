// The coordinator (document 01, "What a coordinator does"): start a write or a read, of a stripe or of one block, take a reply, crash. Each gives
// one refusal, lowest number first, and changes nothing; or the record that follows, the broadcasts to all n bricks, and what is seen.
#![tactic(auto)]

ghost use Rattle.std.specs.Prelude.{◌≡◌, List, ℕ, ◌<◌, length};
ghost use Rattle.coord_apply.specs.Answers.{answered, answer_in, returned};
ghost use Rattle.coordinator.specs.Routines.{write_call, read_call, write_block_call, read_block_call, take_call, crash_call};
ghost use Rattle.coordinator.specs.Workers.{kept_answer, started, kept_blocks, KeepsReply};

use coord_apply::{Answer, BEGAN, CUT};
use coord_record::{
    Coordinator, Geometry, IDLE, Op, READING, READING_BLOCK, WRITING, WRITING_BLOCK,
};
use message::{ORDER, ORDER_BLOCK, READ, Reply};
use settings::{MAX_BRICKS, Refusal};

// Nothing sent and nothing seen.
#[tactic(auto, unfolding(crate::specs::Workers::kept_answer))]
fn kept(c: Coordinator) -> Answer
    ensures { answered result ≡ kept_answer c }
{
    Answer {
        next: c,
        sent: 0,
        message: coord_apply::no_message(),
        second: coord_apply::no_message(),
        seen: coord_apply::nothing_seen(),
    }
}

// An operation begins, with its first round: at the time of a reading, and while none runs. Refused: by the draw 7 the reading, 8 no count left;
// 9 an operation runs.
fn start(
    c: Coordinator,
    reading: u64,
    kind: u8,
    phase: u8,
    stripe: usize,
    first: usize,
    targets: [u8; MAX_BRICKS],
) -> Result<Answer, Refusal>
    ensures { answer_in c result ≡ started c reading kind phase stripe first targets }
{
    let drawn = c.clock.draw(reading);
    let Ok((time, clock)) = drawn else {
        return Err(drawn.unwrap_err());
    };
    if c.op.kind != IDLE {
        return Err(Refusal::Busy);
    }
    let op = Op {
        kind,
        phase,
        stripe,
        time,
        round: message::FIRST_ROUND,
        max: 0,
        first,
    };
    Ok(Answer {
        next: Coordinator {
            clock,
            op,
            ..coord_record::idle_with(c.geometry, clock)
        },
        sent: 1,
        message: coord_apply::round_message(op, 0, targets),
        second: coord_apply::no_message(),
        seen: coord_apply::notice_of(op, BEGAN, coord_letters::NO_LETTER, [0u8; MAX_BRICKS]),
    })
}

// A reply's block in its place, if it holds one.
#[tactic(auto, unfolding(crate::specs::Workers::kept_blocks))]
fn keep(size: usize, reply: Reply, block: &[u8], blocks: &mut [u8])
    requires { KeepsReply size reply (length block.now) (length blocks.old) }
    ensures { blocks.new ≡ kept_blocks size reply block.now blocks.old }
{
    if reply.held {
        coord_blocks::place(size, reply.brick, block, blocks);
    }
}

// Starts a write of m blocks to a stripe, by its number; the lent stripe keeps the blocks from then on. Refused: 1 settings, 2 a length,
// 3 the coordinator's number, 13 the stripe's, 6 the record; by the draw 7 the reading, 8 no count left; 9 an operation runs.
pub fn start_write(
    volume: Geometry,
    c: Coordinator,
    stripe_number: usize,
    reading: u64,
    bytes: &[u8],
    stripe: &mut [u8],
) -> Result<Answer, Refusal>
    ensures { (blocks coded : List ℕ) → returned (answer_in c result) blocks stripe.new coded
        ≡ write_call volume.n volume.m volume.size volume.stripes c blocks stripe.old coded stripe_number reading bytes.now }
{
    coord_refusals::check_write(volume, &c, stripe_number, bytes.len(), stripe.len())?;
    let answer = start(
        c,
        reading,
        WRITING,
        ORDER,
        stripe_number,
        0,
        [0u8; MAX_BRICKS],
    );
    if answer.is_err() {
        return answer;
    }
    byte_lists::copy(bytes, stripe);
    answer
}

// Starts a read of a stripe, by its number, whose targets are counted upward from a brick. Refused: 1 settings, 3 the brick or the
// coordinator's number, 13 the stripe's, 6 the record; by the draw 7 the reading, 8 no count left; 9 an operation runs.
pub fn start_read(
    volume: Geometry,
    c: Coordinator,
    stripe_number: usize,
    reading: u64,
    first: usize,
) -> Result<Answer, Refusal>
    ensures { (blocks stripe coded : List ℕ) → returned (answer_in c result) blocks stripe coded
        ≡ read_call volume.n volume.m volume.size volume.stripes c blocks stripe coded stripe_number reading first }
{
    let code = coord_refusals::check_read(volume, &c, stripe_number, first)?;
    let targets = coord_tally::target_flags(code.n, code.m, first);
    start(c, reading, READING, READ, stripe_number, first, targets)
}

// Starts a write of one block of a stripe, by their numbers; the lent stripe keeps the block in its place from then on. Refused: 1 settings,
// 2 a length, 3 the coordinator's number, 13 the stripe's, 14 the block's, 6 the record; by the draw 7 the reading, 8 no count left;
// 9 an operation runs.
pub fn start_write_block(
    volume: Geometry,
    c: Coordinator,
    stripe_number: usize,
    reading: u64,
    block: usize,
    bytes: &[u8],
    stripe: &mut [u8],
) -> Result<Answer, Refusal>
    ensures { (blocks coded : List ℕ) → returned (answer_in c result) blocks stripe.new coded
        ≡ write_block_call volume.n volume.m volume.size volume.stripes c blocks stripe.old coded stripe_number reading block bytes.now }
{
    coord_refusals::check_write_block(volume, &c, stripe_number, block, bytes.len(), stripe.len())?;
    let targets = [0u8; MAX_BRICKS];
    let begun = start(
        c,
        reading,
        WRITING_BLOCK,
        ORDER_BLOCK,
        stripe_number,
        block,
        targets,
    );
    if begun.is_err() {
        return begun;
    }
    coord_blocks::place(volume.size, block, bytes, stripe);
    begun
}

// Starts a read of one block of a stripe, by their numbers: that block's brick is the only target. Refused: 1 settings, 3 the coordinator's
// number, 13 the stripe's, 14 the block's, 6 the record; by the draw 7 the reading, 8 no count left; 9 an operation runs.
pub fn start_read_block(
    volume: Geometry,
    c: Coordinator,
    stripe_number: usize,
    reading: u64,
    block: usize,
) -> Result<Answer, Refusal>
    ensures { (blocks stripe coded : List ℕ) → returned (answer_in c result) blocks stripe coded
        ≡ read_block_call volume.n volume.m volume.size volume.stripes c blocks stripe coded stripe_number reading block }
{
    let code = coord_refusals::check_read_block(volume, &c, stripe_number, block)?;
    let targets = coord_tally::target_flags(code.n, message::BLOCK_TARGETS, block);
    start(
        c,
        reading,
        READING_BLOCK,
        READ,
        stripe_number,
        block,
        targets,
    )
}

// A crash: the coordinator is idle and keeps its count. Refused: 1 settings, 3 the coordinator's number, 6 the record.
pub fn crash(volume: Geometry, c: Coordinator) -> Result<Answer, Refusal>
    ensures { (blocks stripe coded : List ℕ) → returned (answer_in c result) blocks stripe coded
        ≡ crash_call volume.n volume.m volume.size volume.stripes c blocks stripe coded }
{
    coord_refusals::check_crash(volume, &c)?;
    if c.op.kind == IDLE {
        return Ok(kept(c));
    }
    Ok(coord_apply::end(
        c,
        CUT,
        coord_letters::C,
        [0u8; MAX_BRICKS],
        0,
        coord_apply::no_message(),
    ))
}

// Takes a reply; block is the one it holds. Refused: 1 settings, 2 a length, 3 the brick or the coordinator's number, 13 the stripe's,
// 6 the record, 10 a reply that no brick gives, 11 a reply that does not answer the open round. The reply blocks and the stripe are kept
// from call to call; coded holds the n blocks of a Write round where one is sent.
pub fn take_reply(
    volume: Geometry,
    c: Coordinator,
    reply: Reply,
    block: &[u8],
    blocks: &mut [u8],
    stripe: &mut [u8],
    coded: &mut [u8],
) -> Result<Answer, Refusal>
    ensures { returned (answer_in c result) blocks.new stripe.new coded.new
        ≡ take_call volume.n volume.m volume.size volume.stripes c blocks.old stripe.old coded.old reply block.now }
{
    let code = coord_refusals::check_take(
        volume,
        &c,
        reply,
        block.len(),
        blocks.len(),
        stripe.len(),
        coded.len(),
    )?;
    keep(code.size, reply, block, blocks);
    let tally = coord_decide::tally_with(c.tally, reply);
    let counted = Coordinator { tally, ..c };
    if message::members_of(tally.counted, code.n) < settings::quorum_of(code.n, code.m) {
        return Ok(kept(counted));
    }
    let decision = coord_decide::decide(code.n, code.m, counted.op, tally);
    Ok(coord_apply::act(code, counted, decision, blocks, stripe, coded))
}

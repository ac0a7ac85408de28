// The coordinator at a C boundary of numbers and slices, for the tests and benchmarks that compare it with other code. Every routine is
// lent four buffers: the record's 27 numbers and 82 bytes, and the answer's 16 numbers and 53 bytes. A refusal leaves them as they were;
// the lowest number comes first: 1, then 2 for one of these buffers, then what the coordinator refuses.
#![tactic(auto)]

ghost use Rattle.std.specs.Prelude.{◌≡◌, IfOk, [], ◌+◌, ◌≤◌, length};
ghost use Rattle.coord_apply.specs.Answers.{answered, answer_in};
ghost use Rattle.coord_record.specs.declared.Coordinator.{Coordinator};
ghost use Rattle.settings.specs.Refusal.{refusal_in};
ghost use Rattle.settings.specs.Ranges.{max_bricks};
ghost use Rattle.test_coordinator.specs.CoordinatorBoundary.{record_numbers_length, record_bytes_length, answer_numbers_length, answer_bytes_length};
ghost use Rattle.test_coordinator.specs.CoordinatorBoundary.{record_for, record_numbers, record_bytes, answer_numbers, answer_bytes};
ghost use Rattle.test_coordinator.specs.CoordinatorBoundary.{Lengths, lent_lengths, lent_refusal, rows, laid_out, at_boundary, row_put, reply_for};
ghost use Rattle.test_coordinator.specs.CoordinatorBoundary.{wrote, looked, wrote_block, looked_block, took, fell};

use coord_apply::Answer;
use coord_record::{Coordinator, Geometry, Op, Tally};
use message::Reply;
use settings::{Clock, MAX_BRICKS, Refusal};

// How many numbers and bytes a record has, and an answer.
const RECORD_NUMBERS: usize = 27;

const RECORD_BYTES: usize = 82;

const ANSWER_NUMBERS: usize = 16;

const ANSWER_BYTES: usize = 53;

// Where a record's numbers stand.
const COORDINATOR: usize = 0;

const LAST: usize = 1;

const TIME: usize = 2;

const ROUND: usize = 3;

const MAX: usize = 4;

const FIRST: usize = 5;

const RECORD_N: usize = 6;

const RECORD_M: usize = 7;

const RECORD_SIZE: usize = 8;

const RECORD_STRIPES: usize = 9;

const RECORD_STRIPE: usize = 10;

const FOUND: usize = 11;

// Where its bytes stand.
const KIND: usize = 0;

const PHASE: usize = 1;

const COUNTED: usize = 2;

const GRANTED: usize = 18;

const HELD: usize = 34;

const BRICKS: usize = 50;

const SAID: usize = 66;

// Where an answer's numbers stand: how many broadcasts are sent, the message, what is seen, the second message, their stripes, and the old times
// and blocks of the messages and the block of what is seen.
const SENT: usize = 0;

const MESSAGE_TIME: usize = 1;

const MESSAGE_ROUND: usize = 2;

const MESSAGE_MAX: usize = 3;

const SEEN_TIME: usize = 4;

const SECOND_MESSAGE_TIME: usize = 5;

const SECOND_MESSAGE_ROUND: usize = 6;

const SECOND_MESSAGE_MAX: usize = 7;

const MESSAGE_STRIPE: usize = 8;

const SEEN_STRIPE: usize = 9;

const SECOND_MESSAGE_STRIPE: usize = 10;

const MESSAGE_OLD: usize = 11;

const MESSAGE_BLOCK: usize = 12;

const SECOND_MESSAGE_OLD: usize = 13;

const SECOND_MESSAGE_BLOCK: usize = 14;

const SEEN_BLOCK: usize = 15;

// Where its bytes stand, then its rows, the kind of its second message, and the letter of what is seen.
const MESSAGE_KIND: usize = 0;

const SEEN_WHAT: usize = 1;

const SEEN_KIND: usize = 2;

const TARGETS: usize = 3;

const SEEN_BRICKS: usize = 19;

const SECOND_TARGETS: usize = 35;

const SECOND_KIND: usize = 51;

const SEEN_LETTER: usize = 52;

// Whether the four buffers have their lengths.
#[tactic(auto, unfolding(crate::specs::CoordinatorBoundary::lent_lengths), using(std::proofs::lemmas::Bool::Decides::nat_tests))]
fn lent_right(numbers: usize, bytes: usize, sent: usize, shown: usize) -> bool
    ensures { result ≡ lent_lengths numbers bytes sent shown }
{
    numbers == RECORD_NUMBERS
        && (bytes == RECORD_BYTES && (sent == ANSWER_NUMBERS && shown == ANSWER_BYTES))
}

// Sixteen entries from a slice of sixteen.
fn row_of<T: Copy>(t: &[T]) -> [T; MAX_BRICKS]
    requires { length t.now ≡ max_bricks }
    ensures { result ≡ t.now }
{
    <[T; MAX_BRICKS]>::try_from(t).unwrap()
}

// The record of its numbers and bytes.
fn record_of(numbers: &[u64], bytes: &[u8]) -> Coordinator
    requires numbers_len { length numbers.now ≡ record_numbers_length }
    requires bytes_len { length bytes.now ≡ record_bytes_length }
    ensures { result ≡ record_for numbers.now bytes.now }
{
    let geometry = Geometry {
        n: numbers[RECORD_N] as usize,
        m: numbers[RECORD_M] as usize,
        size: numbers[RECORD_SIZE] as usize,
        stripes: numbers[RECORD_STRIPES] as usize,
    };
    let clock = Clock {
        coordinator: numbers[COORDINATOR],
        last: numbers[LAST],
    };
    let op = Op {
        kind: bytes[KIND],
        phase: bytes[PHASE],
        stripe: numbers[RECORD_STRIPE] as usize,
        time: numbers[TIME],
        round: numbers[ROUND],
        max: numbers[MAX],
        first: numbers[FIRST] as usize,
    };
    let found = row_of(&numbers[FOUND..RECORD_NUMBERS]);
    let counted = row_of(&bytes[COUNTED..GRANTED]);
    let granted = row_of(&bytes[GRANTED..HELD]);
    let held = row_of(&bytes[HELD..BRICKS]);
    let bricks = row_of(&bytes[BRICKS..SAID]);
    let said = row_of(&bytes[SAID..RECORD_BYTES]);
    Coordinator {
        geometry,
        clock,
        op,
        tally: Tally {
            counted,
            granted,
            held,
            found,
            said,
        },
        bricks,
    }
}

// The record that a call is lent. Refused: 1 for a setting outside its range, then 2 where one of the four buffers has another length.
#[tactic(auto, unfolding(crate::specs::CoordinatorBoundary::lent_refusal), using(coord_refusals::proofs::Laws::RefusedLaws::checks))]
fn lent_record(
    volume: Geometry,
    numbers: &[u64],
    bytes: &[u8],
    sent: &[u64],
    shown: &[u8],
) -> Result<Coordinator, Refusal>
    ensures value { refusal_in result ≡ lent_refusal volume.n volume.m volume.size volume.stripes
        (length numbers.now) (length bytes.now) (length sent.now) (length shown.now) }
    ensures lengths { IfOk result (λ (c : Coordinator). Lengths (length numbers.now) (length bytes.now) (length sent.now) (length shown.now)) }
    ensures read { IfOk result (λ (c : Coordinator). c ≡ record_for numbers.now bytes.now) }
{
    settings::check_code(volume.n, volume.m, volume.size)?;
    settings::check_stripe_count(volume.stripes)?;
    if lent_right(numbers.len(), bytes.len(), sent.len(), shown.len()) {
        return Ok(record_of(numbers, bytes));
    }
    Err(Refusal::BadLength)
}

// Sixteen entries in their place.
fn put_row<T: Copy>(row: [T; MAX_BRICKS], at: usize, out: &mut [T])
    requires { at + max_bricks ≤ length out.old }
    ensures out_after { out.new ≡ row_put at row out.old }
    ensures row_len { length row ≡ max_bricks }
{
    let end = at + MAX_BRICKS;
    out[at..end].copy_from_slice(&row);
}

// The numbers of a record.
fn put_numbers(c: &Coordinator, out: &mut [u64])
    requires { length out.old ≡ record_numbers_length }
    ensures { out.new ≡ record_numbers c.now }
{
    out[COORDINATOR] = c.clock.coordinator;
    out[LAST] = c.clock.last;
    out[TIME] = c.op.time;
    out[ROUND] = c.op.round;
    out[MAX] = c.op.max;
    out[FIRST] = c.op.first as u64;
    out[RECORD_N] = c.geometry.n as u64;
    out[RECORD_M] = c.geometry.m as u64;
    out[RECORD_SIZE] = c.geometry.size as u64;
    out[RECORD_STRIPES] = c.geometry.stripes as u64;
    out[RECORD_STRIPE] = c.op.stripe as u64;
    put_row(c.tally.found, FOUND, out)
}

// The bytes of a record.
fn put_bytes(c: &Coordinator, out: &mut [u8])
    requires { length out.old ≡ record_bytes_length }
    ensures { out.new ≡ record_bytes c.now }
{
    out[KIND] = c.op.kind;
    out[PHASE] = c.op.phase;
    put_row(c.tally.counted, COUNTED, out);
    put_row(c.tally.granted, GRANTED, out);
    put_row(c.tally.held, HELD, out);
    put_row(c.bricks, BRICKS, out);
    put_row(c.tally.said, SAID, out)
}

// The numbers of an answer.
fn put_sent(a: &Answer, out: &mut [u64])
    requires { length out.old ≡ answer_numbers_length }
    ensures { out.new ≡ answer_numbers (answered a.now) }
{
    out[SENT] = a.sent as u64;
    out[MESSAGE_TIME] = a.message.time;
    out[MESSAGE_ROUND] = a.message.round;
    out[MESSAGE_MAX] = a.message.max;
    out[SEEN_TIME] = a.seen.time;
    out[SECOND_MESSAGE_TIME] = a.second.time;
    out[SECOND_MESSAGE_ROUND] = a.second.round;
    out[SECOND_MESSAGE_MAX] = a.second.max;
    out[MESSAGE_STRIPE] = a.message.stripe as u64;
    out[SEEN_STRIPE] = a.seen.stripe as u64;
    out[SECOND_MESSAGE_STRIPE] = a.second.stripe as u64;
    out[MESSAGE_OLD] = a.message.old;
    out[MESSAGE_BLOCK] = a.message.block as u64;
    out[SECOND_MESSAGE_OLD] = a.second.old;
    out[SECOND_MESSAGE_BLOCK] = a.second.block as u64;
    out[SEEN_BLOCK] = a.seen.block as u64;
}

// The bytes of an answer.
fn put_shown(a: &Answer, out: &mut [u8])
    requires { length out.old ≡ answer_bytes_length }
    ensures { out.new ≡ answer_bytes (answered a.now) }
{
    out[MESSAGE_KIND] = a.message.kind;
    out[SEEN_WHAT] = a.seen.what;
    out[SEEN_KIND] = a.seen.kind;
    out[SECOND_KIND] = a.second.kind;
    out[SEEN_LETTER] = a.seen.letter;
    let targets = a.message.targets;
    let bricks = a.seen.bricks;
    let more = a.second.targets;
    put_row(targets, TARGETS, out);
    put_row(bricks, SEEN_BRICKS, out);
    put_row(more, SECOND_TARGETS, out)
}

// An answer into the four buffers, and its refusal.
fn put_answer(
    answer: Result<Answer, Refusal>,
    numbers: &mut [u64],
    bytes: &mut [u8],
    sent: &mut [u64],
    shown: &mut [u8],
) -> u32
    requires { Lengths (length numbers.old) (length bytes.old) (length sent.old) (length shown.old) }
    ensures value { (old : Coordinator) → result ≡ (answer_in old answer).refusal }
    ensures shown_after { (old : Coordinator) → rows numbers.new bytes.new sent.new shown.new
        ≡ laid_out (rows numbers.old bytes.old sent.old shown.old) (answer_in old answer) }
{
    let Ok(a) = answer else {
        return answer.unwrap_err().number();
    };
    put_numbers(&a.next, numbers);
    put_bytes(&a.next, bytes);
    put_sent(&a, sent);
    put_shown(&a, shown);
    settings::PASSED
}

// A write begins.
#[unsafe(no_mangle)]
pub extern "C" fn coord_start_write(
    n: usize,
    m: usize,
    size: usize,
    stripes: usize,
    numbers: &mut [u64],
    bytes: &mut [u8],
    sent: &mut [u64],
    shown: &mut [u8],
    stripe_number: usize,
    reading: u64,
    given: &[u8],
    stripe: &mut [u8],
) -> u32
    ensures { at_boundary result (rows numbers.new bytes.new sent.new shown.new)
        [] stripe.new []
        ≡ wrote n m size stripes (rows numbers.old bytes.old sent.old shown.old)
        stripe_number reading given.now stripe.old }
{
    let volume = Geometry {
        n,
        m,
        size,
        stripes,
    };
    let lent = lent_record(volume, numbers, bytes, sent, shown);
    let Ok(c) = lent else {
        return lent.unwrap_err().number();
    };
    let answer = coordinator::start_write(volume, c, stripe_number, reading, given, stripe);
    put_answer(answer, numbers, bytes, sent, shown)
}

// A read begins.
#[unsafe(no_mangle)]
pub extern "C" fn coord_start_read(
    n: usize,
    m: usize,
    size: usize,
    stripes: usize,
    numbers: &mut [u64],
    bytes: &mut [u8],
    sent: &mut [u64],
    shown: &mut [u8],
    stripe_number: usize,
    reading: u64,
    first: usize,
) -> u32
    ensures { at_boundary result (rows numbers.new bytes.new sent.new shown.new) [] [] []
        ≡ looked n m size stripes (rows numbers.old bytes.old sent.old shown.old)
        stripe_number reading first }
{
    let volume = Geometry {
        n,
        m,
        size,
        stripes,
    };
    let lent = lent_record(volume, numbers, bytes, sent, shown);
    let Ok(c) = lent else {
        return lent.unwrap_err().number();
    };
    let answer = coordinator::start_read(volume, c, stripe_number, reading, first);
    put_answer(answer, numbers, bytes, sent, shown)
}

// A write of one block begins.
#[unsafe(no_mangle)]
pub extern "C" fn coord_start_write_block(
    n: usize,
    m: usize,
    size: usize,
    stripes: usize,
    numbers: &mut [u64],
    bytes: &mut [u8],
    sent: &mut [u64],
    shown: &mut [u8],
    stripe_number: usize,
    reading: u64,
    block: usize,
    given: &[u8],
    stripe: &mut [u8],
) -> u32
    ensures { at_boundary result (rows numbers.new bytes.new sent.new shown.new)
        [] stripe.new []
        ≡ wrote_block n m size stripes (rows numbers.old bytes.old sent.old shown.old)
        stripe_number reading block given.now stripe.old }
{
    let volume = Geometry {
        n,
        m,
        size,
        stripes,
    };
    let lent = lent_record(volume, numbers, bytes, sent, shown);
    let Ok(c) = lent else {
        return lent.unwrap_err().number();
    };
    let answer = coordinator::start_write_block(
        volume,
        c,
        stripe_number,
        reading,
        block,
        given,
        stripe,
    );
    put_answer(answer, numbers, bytes, sent, shown)
}

// A read of one block begins.
#[unsafe(no_mangle)]
pub extern "C" fn coord_start_read_block(
    n: usize,
    m: usize,
    size: usize,
    stripes: usize,
    numbers: &mut [u64],
    bytes: &mut [u8],
    sent: &mut [u64],
    shown: &mut [u8],
    stripe_number: usize,
    reading: u64,
    block: usize,
) -> u32
    ensures { at_boundary result (rows numbers.new bytes.new sent.new shown.new) [] [] []
        ≡ looked_block n m size stripes (rows numbers.old bytes.old sent.old shown.old)
        stripe_number reading block }
{
    let volume = Geometry {
        n,
        m,
        size,
        stripes,
    };
    let lent = lent_record(volume, numbers, bytes, sent, shown);
    let Ok(c) = lent else {
        return lent.unwrap_err().number();
    };
    let answer = coordinator::start_read_block(volume, c, stripe_number, reading, block);
    put_answer(answer, numbers, bytes, sent, shown)
}

// A reply arrives; stripe_number: its stripe's, has: whether it holds a block, comparison: the one that said no.
#[unsafe(no_mangle)]
pub extern "C" fn coord_take_reply(
    n: usize,
    m: usize,
    size: usize,
    stripes: usize,
    numbers: &mut [u64],
    bytes: &mut [u8],
    sent: &mut [u64],
    shown: &mut [u8],
    kind: u8,
    brick: usize,
    stripe_number: usize,
    time: u64,
    round: u64,
    yes: bool,
    found: u64,
    has: bool,
    comparison: u8,
    block: &[u8],
    blocks: &mut [u8],
    stripe: &mut [u8],
    coded: &mut [u8],
) -> u32
    ensures { at_boundary result (rows numbers.new bytes.new sent.new shown.new)
        blocks.new stripe.new coded.new
        ≡ took n m size stripes (rows numbers.old bytes.old sent.old shown.old)
        (reply_for kind brick stripe_number time round yes found has comparison) block.now
        blocks.old stripe.old coded.old }
{
    let volume = Geometry {
        n,
        m,
        size,
        stripes,
    };
    let lent = lent_record(volume, numbers, bytes, sent, shown);
    let Ok(c) = lent else {
        return lent.unwrap_err().number();
    };
    let reply = Reply {
        kind,
        brick,
        stripe: stripe_number,
        time,
        round,
        yes,
        found,
        held: has,
        comparison,
    };
    let answer = coordinator::take_reply(volume, c, reply, block, blocks, stripe, coded);
    put_answer(answer, numbers, bytes, sent, shown)
}

// A crash.
#[unsafe(no_mangle)]
pub extern "C" fn coord_crash(
    n: usize,
    m: usize,
    size: usize,
    stripes: usize,
    numbers: &mut [u64],
    bytes: &mut [u8],
    sent: &mut [u64],
    shown: &mut [u8],
) -> u32
    ensures { at_boundary result (rows numbers.new bytes.new sent.new shown.new) [] [] []
        ≡ fell n m size stripes (rows numbers.old bytes.old sent.old shown.old) }
{
    let volume = Geometry {
        n,
        m,
        size,
        stripes,
    };
    let lent = lent_record(volume, numbers, bytes, sent, shown);
    let Ok(c) = lent else {
        return lent.unwrap_err().number();
    };
    let answer = coordinator::crash(volume, c);
    put_answer(answer, numbers, bytes, sent, shown)
}

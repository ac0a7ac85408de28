// What a coordinator's decisions do (document 01, "What a coordinator does"). Each gives the record that follows, the
// broadcasts to all n bricks, and what is seen.
// inner: call `coordinator::take_reply`
#![tactic(auto)]

ghost use Rattle.std.specs.Prelude.{cond, ◌≡◌, ◌*◌, ◌≤◌, length};
ghost use Rattle.coord_apply.specs.Acts.{buffered};
ghost use Rattle.coord_apply.specs.Workers.{DecisionReady, Acted, open_answer, preceded_answer, ahead_answer, end_answer, finished_letter};
ghost use Rattle.coord_apply.specs.Acts.{round_message, clear_message, drops_first, trims_first, next_op, finished_seen, notice_of, named_bricks};
ghost use Rattle.coord_blocks.specs.Blocks.{stripe_from, agreeing, given_stripe, stored_stripe};
ghost use Rattle.coord_tally.specs.Counting.{givers, first_givers, picked, target_row, at_times};
ghost use Rattle.coord_decide.specs.Deciding.{decided};
ghost use Rattle.coord_decide.specs.declared.Decision.TheVariants.{Recover};
ghost use Rattle.coord_record.specs.Records.{target_count, no_bricks};
ghost use Rattle.erasure.specs.Code.{coded_of};
ghost use Rattle.message.specs.Kinds.{order_read_kind, write_kind, trim_kind, last_round};
ghost use Rattle.settings.specs.Count.{count};
ghost use Rattle.coord_apply.specs.Answers.{answered, nothing_seen, no_message, read_seen, aborted_seen, letter_of};
ghost use Rattle.erasure.specs.Workers.{Encodes};
ghost use Rattle.settings.specs.Ranges.{max_bricks};

use coord_decide::Decision;
use coord_record::{Coordinator, Op};
use message::Message;
use settings::{Code, MAX_BRICKS};

// What is seen of an operation: nothing, its beginning, or how it ended.
// stays: numbers and no enum, as `Notice::what` holds them: definitions (`Answers.letter_of`, `how_many_named`), the theorems over runs and
// the C boundary of `test_coordinator` read the field as a number.
pub const NOTHING: u8 = 0;

pub const BEGAN: u8 = 1;

pub const OK: u8 = 2;

pub const STRIPE: u8 = 3;

pub const ABORTED: u8 = 4;

pub const CUT: u8 = 5;

// An answer has room for the messages of so many broadcasts.
pub const MOST_BROADCASTS: usize = 2;

// what: one of these, of the operation of this kind, stripe and time. block: the number of the block that it is on, 0 where it is on the
// stripe. bricks: the bricks that a finished read decoded from, or the one that gave the block, from the front of the row, and 0 past them; how
// many they are follows from what, letter, kind and m, as `Answers.how_many_named` says. letter: which rule ended it, of those in
// `coord_letters`; none where nothing ended.
#[derive(Clone, Copy)]
pub struct Notice {
    pub what: u8,
    pub kind: u8,
    pub stripe: usize,
    pub time: u64,
    pub block: usize,
    pub bricks: [u8; MAX_BRICKS],
    pub letter: u8,
}

// next: the record that follows. sent: how many broadcasts there are, two at most, each to all n bricks. message, second: what is sent, in this
// order; the blocks of a Write round stand in the lent output buffer. With Modify of block j go block j of the lent stripe, the new one, and
// block j of the lent reply blocks, the old one.
// stays: `sent` beside two messages: the C boundary of `test_coordinator` writes all three fields, and `Answers.answer_of`, `Driver.listed` and
// `BenchActed` read them so.
#[derive(Clone, Copy)]
pub struct Answer {
    pub next: Coordinator,
    pub sent: usize,
    pub message: Message,
    pub second: Message,
    pub seen: Notice,
}

// Nothing is seen.
#[tactic(auto, unfolding(crate::specs::Answers::nothing_seen, coord_record::specs::Records::no_bricks))]
pub fn nothing_seen() -> Notice
    ensures { result ≡ nothing_seen }
{
    Notice {
        what: NOTHING,
        kind: coord_record::IDLE,
        stripe: 0,
        time: 0,
        block: 0,
        bricks: [0u8; MAX_BRICKS],
        letter: coord_letters::NO_LETTER,
    }
}

// No message.
#[tactic(auto, unfolding(crate::specs::Answers::no_message, coord_record::specs::Records::no_bricks))]
pub fn no_message() -> Message
    ensures { result ≡ no_message }
{
    Message {
        kind: 0,
        stripe: 0,
        time: 0,
        round: 0,
        max: 0,
        old: 0,
        block: 0,
        targets: [0u8; MAX_BRICKS],
    }
}

// The message of a round, to all bricks, about the operation's stripe; old: Modify's old time, else 0.
#[tactic(auto, unfolding(crate::specs::Acts::round_message))]
pub fn round_message(op: Op, old: u64, targets: [u8; MAX_BRICKS]) -> Message
    ensures { result ≡ round_message op old targets }
{
    Message {
        kind: op.phase,
        stripe: op.stripe,
        time: op.time,
        round: op.round,
        max: op.max,
        old,
        block: if message::names_block(op.phase) {
            op.first
        } else {
            0
        },
        targets,
    }
}

// Trim or Drop of a time on an operation's stripe, with the number of its round that ended.
#[tactic(auto, unfolding(crate::specs::Acts::clear_message, crate::specs::Answers::no_message, coord_record::specs::Records::no_bricks))]
fn clear_message(kind: u8, ended: Op, time: u64) -> Message
    ensures { result ≡ clear_message kind ended time }
{
    Message {
        kind,
        stripe: ended.stripe,
        time,
        round: ended.round,
        ..no_message()
    }
}

// The next round of an operation.
#[tactic(auto, unfolding(crate::specs::Acts::next_op))]
fn next_op(op: Op, phase: u8, max: u64) -> Op
    requires { op.round ≤ last_round }
    ensures { result ≡ next_op op phase max }
{
    Op {
        phase,
        round: op.round + 1,
        max,
        ..op
    }
}

// The answer that opens the next round; old: Modify's old time, else 0.
#[tactic(auto, unfolding(crate::specs::Workers::open_answer, crate::specs::Acts::opened, coord_record::specs::Records::no_bricks))]
fn open(c: Coordinator, phase: u8, max: u64, old: u64, bricks: [u8; MAX_BRICKS]) -> Answer
    requires { c.op.round ≤ last_round }
    ensures { answered result ≡ open_answer c phase max old bricks }
{
    let op = next_op(c.op, phase, max);
    Answer {
        next: Coordinator {
            op,
            tally: coord_record::nothing_counted(),
            bricks,
            ..c
        },
        sent: 1,
        message: round_message(op, old, [0u8; MAX_BRICKS]),
        second: no_message(),
        seen: nothing_seen(),
    }
}

// An answer that has one message, with one ahead of it.
#[tactic(auto, unfolding(crate::specs::Workers::preceded_answer))]
fn preceded(first: Message, a: Answer) -> Answer
    ensures { answered result ≡ preceded_answer first (answered a) }
{
    Answer {
        sent: MOST_BROADCASTS,
        message: first,
        second: a.message,
        ..a
    }
}

// The next recovery round, below this max: after Drop of it where the round before was one too, which found it.
#[tactic(auto, using(crate::proofs::Laws::FirstLaws::drops), unfolding(coord_record::specs::Records::no_bricks))]
fn look(c: Coordinator, max: u64) -> Answer
    requires { c.op.round ≤ last_round }
    ensures { answered result ≡ ahead_answer (drops_first c.op max) (open_answer c order_read_kind max 0 no_bricks) }
{
    let a = open(c, message::ORDER_READ, max, 0, [0u8; MAX_BRICKS]);
    if c.op.phase == message::ORDER_READ {
        return preceded(clear_message(message::DROP, c.op, max), a);
    }
    a
}

// What is seen of an operation; block: the one that it is on, 0 for one on the stripe.
#[tactic(auto, unfolding(crate::specs::Acts::seen_block))]
pub fn notice_of(op: Op, what: u8, letter: u8, bricks: [u8; MAX_BRICKS]) -> Notice
    ensures { result ≡ notice_of op what letter bricks }
{
    Notice {
        what,
        kind: op.kind,
        stripe: op.stripe,
        time: op.time,
        block: if coord_record::on_block(op.kind) {
            op.first
        } else {
            0
        },
        bricks,
        letter,
    }
}

// The answer that ends the operation.
#[tactic(auto, unfolding(crate::specs::Workers::end_answer))]
pub fn end(
    c: Coordinator,
    what: u8,
    letter: u8,
    bricks: [u8; MAX_BRICKS],
    sent: usize,
    message: Message,
) -> Answer
    ensures { answered result ≡ end_answer c what letter bricks sent message }
{
    Answer {
        next: coord_record::idle_with(c.geometry, c.clock),
        sent,
        message,
        second: no_message(),
        seen: notice_of(c.op, what, letter, bricks),
    }
}

// The answer that ends the operation aborted.
#[tactic(auto, unfolding(crate::specs::Answers::letter_of, coord_record::specs::Records::no_bricks))]
fn abort(n: usize, c: Coordinator) -> Answer
    requires { n ≤ max_bricks }
    ensures { answered result ≡ end_answer c aborted_seen (letter_of n c.op c.tally aborted_seen) no_bricks 0 no_message }
{
    let letter = coord_letters::abort_letter(n, c.op, c.tally);
    end(c, ABORTED, letter, [0u8; MAX_BRICKS], 0, no_message())
}

// Gives what the targets gave, and names them.
#[tactic(auto, using(crate::proofs::Laws::NoticeLaws::few_targets), unfolding(crate::specs::Answers::letter_of))]
fn give(code: Code, c: Coordinator, blocks: &[u8], stripe: &mut [u8]) -> Answer
    requires { DecisionReady code.n code.m code.size c (length blocks.now) (length stripe.old) }
    ensures value { answered result ≡ end_answer c read_seen (letter_of code.n c.op c.tally read_seen)
        (target_row code.n (target_count code.m c.op.kind) c.op.first) 0 no_message }
    ensures stripe_after { stripe.new ≡ given_stripe code.n code.m code.size c.op blocks.now stripe.old }
{
    coord_blocks::take_given(code, c.op, blocks, stripe);
    let targets = coord_record::target_count(code.m, c.op.kind);
    let row = coord_tally::target_row(code.n, targets, c.op.first);
    end(
        c,
        STRIPE,
        coord_letters::read_letter(c.op),
        row,
        0,
        no_message(),
    )
}

// Decodes from the blocks of the first m by number of the k bricks that gave this time, and checks the blocks of the others against them.
// Whether all agree; if not, nothing is written.
fn recover(
    code: Code,
    c: Coordinator,
    time: u64,
    k: usize,
    blocks: &[u8],
    stripe: &mut [u8],
) -> bool
    requires decision_ready { DecisionReady code.n code.m code.size c (length blocks.now) (length stripe.old) }
    requires k_value { (k ≡ count (at_times c.tally.held c.tally.found time) code.n) × (code.m ≤ k) }
    ensures value { result ≡ agreeing code.m code.size (givers c.tally.held c.tally.found time code.n) blocks.now }
    ensures stripe_after { stripe.new ≡ cond result (stored_stripe code.size c.op stripe.old
        (stripe_from code.m code.size (first_givers c.tally.held c.tally.found time code.n code.m) blocks.now)) stripe.old }
{
    let row = coord_tally::pick(c.tally.held, c.tally.found, time, code.n, code.n);
    coord_blocks::decode_stored(code.m, code.size, c.op, &row[..k], blocks, stripe)
}

// The bricks that the recovery at this time names: the first m by number that gave it, by a read.
#[tactic(auto, unfolding(crate::specs::Acts::named_bricks, coord_record::specs::Records::no_bricks))]
fn recovery_names(code: Code, c: Coordinator, time: u64) -> [u8; MAX_BRICKS]
    ensures { result ≡ named_bricks c.op (picked c.tally.held c.tally.found time code.n code.m) }
{
    if coord_record::is_reading(c.op.kind) {
        return coord_tally::pick(c.tally.held, c.tally.found, time, code.n, code.m);
    }
    [0u8; MAX_BRICKS]
}

// The Write round, which names the bricks that a recovered read decoded from.
fn store(
    code: Code,
    c: Coordinator,
    row: [u8; MAX_BRICKS],
    stripe: &[u8],
    coded: &mut [u8],
) -> Answer
    requires encodes { Encodes code.n code.m code.size (length stripe.now) (length coded.old) }
    requires round_le_last_round { c.op.round ≤ last_round }
    ensures value { answered result ≡ open_answer c write_kind 0 0 row }
    ensures coded_after { coded.new ≡ coded_of code.n code.m code.size stripe.now }
{
    erasure::encode_into(code.n, code.m, code.size, stripe, coded);
    open(c, message::WRITE, 0, 0, row)
}

// Trim of the time that a recovery chose, which k bricks gave, ahead of its store: where all of a quorum gave it and it is not 0.
#[tactic(auto, using(crate::proofs::Laws::FirstLaws::trims))]
fn trim_first(code: Code, c: Coordinator, time: u64, k: usize, a: Answer) -> Answer
    requires { k ≡ count (at_times c.tally.held c.tally.found time) code.n }
    ensures { answered result ≡ ahead_answer (trims_first code.n code.m c.op c.tally time) (answered a) }
{
    let quorum = settings::quorum_of(code.n, code.m);
    if time == 0 {
        return a;
    }
    if quorum <= k {
        return preceded(clear_message(message::TRIM, c.op, time), a);
    }
    a
}

// The Write round of a recovery at this time, which k bricks gave, after the early Trim, if any.
#[tactic(auto, using(crate::proofs::Laws::FirstLaws::found_answered))]
fn store_found(
    code: Code,
    c: Coordinator,
    time: u64,
    k: usize,
    stripe: &[u8],
    coded: &mut [u8],
) -> Answer
    requires encodes { Encodes code.n code.m code.size (length stripe.now) (length coded.old) }
    requires round_le_last_round { (c.op.round ≤ last_round) × (k ≡ count (at_times c.tally.held c.tally.found time) code.n) }
    ensures value { answered result ≡ ahead_answer (trims_first code.n code.m c.op c.tally time)
        (open_answer c write_kind 0 0 (named_bricks c.op (picked c.tally.held c.tally.found time code.n code.m))) }
    ensures coded_after { coded.new ≡ coded_of code.n code.m code.size stripe.now }
{
    let a = store(code, c, recovery_names(code, c, time), stripe, coded);
    trim_first(code, c, time, k, a)
}

// Recovers at this time: the Write round of what the blocks that gave it decode to; aborted, and nothing sent, if they disagree.
fn recover_and_store(
    code: Code,
    c: Coordinator,
    time: u64,
    blocks: &[u8],
    stripe: &mut [u8],
    coded: &mut [u8],
) -> Answer
    requires decision_ready { DecisionReady code.n code.m code.size c (length blocks.now) (length stripe.old) }
    requires coded_len { (length coded.old ≡ code.n * code.size) × (code.m ≤ count (at_times c.tally.held c.tally.found time) code.n) }
    ensures { Acted code.n code.m code.size (buffered c blocks.now stripe.old) (Recover time) coded.old
        (answered result) stripe.new coded.new }
{
    let k = coord_tally::count_at(c.tally.held, c.tally.found, time, code.n);
    if recover(code, c, time, k, blocks, stripe) {
        return store_found(code, c, time, k, stripe, coded);
    }
    abort(code.n, c)
}

// How a finished Write or Modify round is seen.
#[tactic(auto, unfolding(crate::specs::Acts::finished_seen))]
fn finished_seen(op: Op) -> u8
    ensures { result ≡ finished_seen op }
{
    if coord_record::is_reading(op.kind) {
        STRIPE
    } else {
        OK
    }
}

// The letter of a finished Write or Modify round.
#[tactic(auto, unfolding(crate::specs::Workers::finished_letter))]
fn finished_letter(op: Op) -> u8
    ensures { result ≡ finished_letter op }
{
    if coord_record::is_reading(op.kind) {
        coord_letters::read_letter(op)
    } else {
        coord_letters::S
    }
}

// Answers, and sends Trim.
fn finish(c: Coordinator) -> Answer
    ensures { answered result ≡ end_answer c (finished_seen c.op) (finished_letter c.op) c.bricks 1
        (clear_message trim_kind c.op c.op.time) }
{
    let letter = finished_letter(c.op);
    let trim = clear_message(message::TRIM, c.op, c.op.time);
    end(c, finished_seen(c.op), letter, c.bricks, 1, trim)
}

// Carries a decision out.
pub fn act(
    code: Code,
    c: Coordinator,
    d: Decision,
    blocks: &[u8],
    stripe: &mut [u8],
    coded: &mut [u8],
) -> Answer
    requires decision_ready { DecisionReady code.n code.m code.size c (length blocks.now) (length stripe.old) }
    requires coded_len { length coded.old ≡ code.n * code.size }
    requires d_value { d ≡ decided code.n code.m c.op c.tally }
    ensures { Acted code.n code.m code.size (buffered c blocks.now stripe.old) d coded.old
        (answered result) stripe.new coded.new }
{
    match d {
        Decision::Abort => abort(code.n, c),
        Decision::Give => give(code, c, blocks, stripe),
        Decision::Look(max) => look(c, max),
        Decision::Store => store(code, c, [0u8; MAX_BRICKS], stripe, coded),
        Decision::Modify(old) => open(c, message::MODIFY, 0, old, [0u8; MAX_BRICKS]),
        Decision::Recover(time) => recover_and_store(code, c, time, blocks, stripe, coded),
        Decision::Finish => finish(c),
    }
}

// The record of a coordinator (document 01, "What a coordinator does"), by value in small parts, and which records are sound (refusal 6).
// The blocks of the replies and the stripe are lent beside it.
// inner: call `coordinator::start_read`; from outside only `idle_with`
#![tactic(auto)]

ghost use Rattle.std.specs.Prelude.{◌≡◌, ◌≤◌, ◌<◌, get_or};
ghost use Rattle.coord_record.specs.Records.{is_reading, on_block, target_count, no_op, nothing_counted, idle_with};
ghost use Rattle.coord_record.specs.CountedRules.{is_target, block_right, counted_right, entry_right, said_right, kept_right, tally_right};
ghost use Rattle.coord_record.specs.CountedRules.{bricks_right};
ghost use Rattle.coord_record.specs.Sound.{max_right, stored_right, recovery_right, opening_right, read_right, write_right, block_write_right, unset_op};
ghost use Rattle.coord_record.specs.Sound.{op_right, block_low, time_right, named_count, filled_right};
ghost use Rattle.coord_record.specs.Sound.{rules_kept, sound_record};
ghost use Rattle.settings.specs.Times.{max_count, last_coordinator};
ghost use Rattle.settings.specs.Ranges.{max_bricks};

use message::{MODIFY, ORDER, ORDER_BLOCK, ORDER_READ, READ, WRITE};
use settings::{Clock, MAX_BRICKS};

// What runs.
pub const IDLE: u8 = 0;

pub const READING: u8 = 1;

pub const WRITING: u8 = 2;

pub const READING_BLOCK: u8 = 3;

pub const WRITING_BLOCK: u8 = 4;

// The running operation. phase: the kind of the open round's messages. stripe: the number of the stripe that it is on. max: of an
// Order-and-read round. first: the brick that a read's targets are counted upward from; of an operation on one block that block's number,
// which is its brick's. A field without meaning is 0.
// stays: kinds and phases by number, read by `sound_record` and the theorems over runs; unknown ones are refused with 6.
#[derive(Clone, Copy)]
pub struct Op {
    pub kind: u8,
    pub phase: u8,
    pub stripe: usize,
    pub time: u64,
    pub round: u64,
    pub max: u64,
    pub first: usize,
}

// The replies counted in the open round, an entry a brick, 0 where none is counted: counted, said yes, holds a block, the time found, the
// comparison that said no.
// stays: parallel arrays of numbers, read by `sound_record` and the theorems over runs; flags other than 0 and 1 are refused with 6.
#[derive(Clone, Copy)]
pub struct Tally {
    pub counted: [u8; MAX_BRICKS],
    pub granted: [u8; MAX_BRICKS],
    pub held: [u8; MAX_BRICKS],
    pub found: [u64; MAX_BRICKS],
    pub said: [u8; MAX_BRICKS],
}

// The settings that a coordinator was made for, and those that its routines are handed.
// stays: numbers in any range, not a `Code`: `idle_with` takes them, and `sound_record` compares them with those given.
#[derive(Clone, Copy, PartialEq, Eq)]
pub struct Geometry {
    pub n: usize,
    pub m: usize,
    pub size: usize,
    pub stripes: usize,
}

// bricks: the m bricks that a read in its Write round decoded from, rising; else 0.
#[derive(Clone, Copy)]
pub struct Coordinator {
    pub geometry: Geometry,
    pub clock: Clock,
    pub op: Op,
    pub tally: Tally,
    pub bricks: [u8; MAX_BRICKS],
}

// Whether a kind is that of a read, of the stripe or of one block.
#[tactic(auto, unfolding(crate::specs::Records::is_reading))]
pub fn is_reading(kind: u8) -> bool
    ensures { result ≡ is_reading kind }
{
    matches!(kind, READING | READING_BLOCK)
}

// Whether a kind is that of an operation on one block.
#[tactic(auto, unfolding(crate::specs::Records::on_block))]
pub fn on_block(kind: u8) -> bool
    ensures { result ≡ on_block kind }
{
    matches!(kind, READING_BLOCK | WRITING_BLOCK)
}

// How many bricks, counted upward from the first, are asked for their block in the first round.
#[tactic(auto, unfolding(crate::specs::Records::target_count))]
pub fn target_count(m: usize, kind: u8) -> usize
    ensures { result ≡ target_count m kind }
{
    if on_block(kind) {
        message::BLOCK_TARGETS
    } else {
        m
    }
}

// No operation.
#[tactic(auto, unfolding(crate::specs::Records::no_op))]
pub fn no_op() -> Op
    ensures { result ≡ no_op }
{
    Op {
        kind: IDLE,
        phase: 0,
        stripe: 0,
        time: 0,
        round: 0,
        max: 0,
        first: 0,
    }
}

// No reply counted.
#[tactic(auto, unfolding(crate::specs::Records::nothing_counted))]
pub fn nothing_counted() -> Tally
    ensures { result ≡ nothing_counted }
{
    Tally {
        counted: [0; MAX_BRICKS],
        granted: [0; MAX_BRICKS],
        held: [0; MAX_BRICKS],
        found: [0; MAX_BRICKS],
        said: [message::NO_COMPARISON; MAX_BRICKS],
    }
}

// An idle coordinator for these settings, with a clock: what firmware starts from, and goes on from after a power failure. It refuses
// nothing: a record with a setting, a number or a count outside its range is refused by every routine that takes it.
#[tactic(auto, unfolding(crate::specs::Records::idle_with, crate::specs::Records::no_bricks))]
pub fn idle_with(geometry: Geometry, clock: Clock) -> Coordinator
    ensures { result ≡ idle_with geometry clock }
{
    Coordinator {
        geometry,
        clock,
        op: no_op(),
        tally: nothing_counted(),
        bricks: [0; MAX_BRICKS],
    }
}

// Whether a brick is among the m counted upward from the first, wrapping at n.
#[tactic(auto, unfolding(crate::specs::CountedRules::is_target, crate::specs::CountedRules::steps_above))]
pub fn is_target(n: usize, m: usize, first: usize, b: usize) -> bool
    requires { first ≤ n }
    ensures { result ≡ is_target n m first b }
{
    let above = if first <= b { b - first } else { n - first + b };
    above < m
}

// Whether a reply has a block, and a time, as the rules of its round have them.
#[tactic(auto, unfolding(crate::specs::CountedRules::block_right))]
pub fn block_right(phase: u8, target: bool, granted: bool, held: bool, found: u64) -> bool
    ensures { result ≡ block_right phase target granted held found }
{
    match phase {
        READ => held == (granted && target),
        ORDER_BLOCK if granted => held == target,
        ORDER_READ if held => granted,
        ORDER_READ => found == 0,
        _ => !held && found == 0,
    }
}

// What a tally keeps of one brick.
#[derive(Clone, Copy)]
struct Kept {
    counted: u8,
    granted: u8,
    held: u8,
    found: u64,
    said: u8,
}

impl Tally {
    // What is kept of brick b.
    fn of(&self, b: usize) -> Kept
        requires { b < max_bricks }
        ensures counted { result.counted ≡ get_or self.now.counted b 0 }
        ensures granted { result.granted ≡ get_or self.now.granted b 0 }
        ensures held { result.held ≡ get_or self.now.held b 0 }
        ensures found { result.found ≡ get_or self.now.found b 0 }
        ensures said { result.said ≡ get_or self.now.said b 0 }
    {
        Kept {
            counted: self.counted[b],
            granted: self.granted[b],
            held: self.held[b],
            found: self.found[b],
            said: self.said[b],
        }
    }
}

// An open round, as the rules of its replies read it: bricks, how many are targets, the kind of its messages, the brick that targets are
// counted upward from.
#[derive(Clone, Copy)]
struct Round {
    n: usize,
    targets: usize,
    phase: u8,
    first: usize,
    ghost first_low: { first ≤ n },
}

impl Round {
    // Whether what is kept of a counted brick is right.
    #[tactic(auto, unfolding(crate::specs::CountedRules::counted_right))]
    fn counted_right(self, b: usize, kept: Kept) -> bool
        ensures { result ≡ counted_right self.n self.targets self.phase self.first b kept.granted kept.held kept.found }
    {
        let target = is_target(self.n, self.targets, self.first, b);
        0 < self.phase
            && b < self.n
            && kept.granted <= 1
            && kept.held <= 1
            && message::found_right(kept.found)
            && block_right(
                self.phase,
                target,
                kept.granted == 1,
                kept.held == 1,
                kept.found,
            )
    }

    // Whether what is kept of a brick is right.
    #[tactic(auto, unfolding(crate::specs::CountedRules::entry_right))]
    fn entry_right(self, b: usize, kept: Kept) -> bool
        ensures { result ≡ entry_right self.n self.targets self.phase self.first b kept.counted kept.granted kept.held kept.found }
    {
        match kept.counted {
            0 => kept.granted == 0 && kept.held == 0 && kept.found == 0,
            1 => self.counted_right(b, kept),
            _ => false,
        }
    }

    // Whether what is kept of a brick's no is right.
    #[tactic(auto, unfolding(crate::specs::CountedRules::said_right))]
    fn said_right(self, kept: Kept) -> bool
        ensures { result ≡ said_right self.phase kept.counted kept.granted kept.said }
    {
        if kept.counted == 0 {
            return kept.said == message::NO_COMPARISON;
        }
        message::comparison_right(self.phase, kept.granted == 1, kept.said)
    }

    // Whether what a tally keeps of a brick is right.
    #[tactic(auto, unfolding(crate::specs::CountedRules::kept_right))]
    fn kept_right(self, t: &Tally, b: usize) -> bool
        requires { b < max_bricks }
        ensures { result ≡ kept_right self.n self.targets self.phase self.first t.now b }
    {
        let kept = t.of(b);
        self.entry_right(b, kept) && self.said_right(kept)
    }

    // Whether what a tally keeps of each brick is right.
    fn tally_right(self, t: &Tally) -> bool
        ensures { result ≡ tally_right self.n self.targets self.phase self.first t.now }
    {
        (0..MAX_BRICKS).all(|b| self.kept_right(t, b))
    }
}

// Whether a list of k bricks is in rising order, and 0 past them.
fn bricks_right(n: usize, k: usize, bricks: [u8; MAX_BRICKS]) -> bool
    ensures { result ≡ bricks_right n k bricks }
{
    (0..MAX_BRICKS).all(|i| {
        if i < k {
            (bricks[i] as usize) < n && (i == 0 || bricks[i - 1] < bricks[i])
        } else {
            bricks[i] == 0
        }
    })
}

// Whether max is that of an Order-and-read round.
#[tactic(auto, unfolding(crate::specs::Sound::max_right, settings::specs::Times::no_upper_end))]
fn max_right(round: u64, max: u64) -> bool
    ensures { result ≡ max_right round max }
{
    if round == message::SECOND_ROUND {
        max == settings::NO_UPPER_END
    } else {
        settings::is_time(max)
    }
}

// Whether round and max are those of an operation's first round.
#[tactic(auto, unfolding(crate::specs::Sound::opening_right))]
fn opening_right(op: Op) -> bool
    ensures { result ≡ opening_right op }
{
    op.round == message::FIRST_ROUND && op.max == 0
}

// Whether round and max are those of a read's phase.
#[tactic(auto, unfolding(crate::specs::Sound::read_right))]
fn read_right(op: Op) -> bool
    ensures { result ≡ read_right op }
{
    match op.phase {
        READ => opening_right(op),
        _ => recovery_right(op),
    }
}

// Whether round and max are those of a block write's phase.
#[tactic(auto, unfolding(crate::specs::Sound::block_write_right))]
fn block_write_right(op: Op) -> bool
    ensures { result ≡ block_write_right op }
{
    match op.phase {
        ORDER_BLOCK => opening_right(op),
        MODIFY => op.round == message::SECOND_ROUND && op.max == 0,
        _ => recovery_right(op),
    }
}

// Whether round and max are those of a recovery's phase.
#[tactic(auto, unfolding(crate::specs::Sound::recovery_right))]
fn recovery_right(op: Op) -> bool
    ensures { result ≡ recovery_right op }
{
    match op.phase {
        ORDER_READ => {
            message::SECOND_ROUND <= op.round
                && op.round <= message::LAST_ROUND
                && max_right(op.round, op.max)
        }
        _ => stored_right(op),
    }
}

// The same of its Write round.
#[tactic(auto, unfolding(crate::specs::Sound::stored_right))]
fn stored_right(op: Op) -> bool
    ensures { result ≡ stored_right op }
{
    op.phase == WRITE
        && message::THIRD_ROUND <= op.round
        && op.round <= message::LAST_ROUND
        && op.max == 0
}

// Whether round, max and first are those of a write's phase.
#[tactic(auto, unfolding(crate::specs::Sound::write_right))]
fn write_right(op: Op) -> bool
    ensures { result ≡ write_right op }
{
    op.first == 0
        && op.max == 0
        && match op.phase {
            ORDER => op.round == message::FIRST_ROUND,
            WRITE => op.round == message::SECOND_ROUND,
            _ => false,
        }
}

// Whether no field is set.
#[tactic(auto, unfolding(crate::specs::Sound::unset_op))]
fn unset(op: Op) -> bool
    ensures { result ≡ unset_op op }
{
    op.phase == 0 && op.round == 0 && op.max == 0 && op.first == 0 && op.stripe == 0
}

// Whether phase, round, max and first fit the kind of operation.
#[tactic(auto, unfolding(crate::specs::Sound::op_right, crate::specs::Records::is_reading))]
fn op_right(op: Op) -> bool
    ensures { result ≡ op_right op }
{
    match op.kind {
        IDLE => unset(op),
        READING | READING_BLOCK => read_right(op),
        WRITING => write_right(op),
        WRITING_BLOCK => block_write_right(op),
        _ => false,
    }
}

// Whether an operation on one block is on one of m.
#[tactic(auto, unfolding(crate::specs::Sound::block_low))]
fn block_low(m: usize, op: Op) -> bool
    ensures { result ≡ block_low m op }
{
    !on_block(op.kind) || op.first < m
}

// Whether the operation's time is the one drawn last.
#[tactic(auto, unfolding(crate::specs::Sound::time_right, settings::specs::Times::time_of, settings::specs::Times::max_count))]
fn time_right(kind: u8, time: u64, clock: Clock) -> bool
    requires last_le_max_count { clock.last ≤ max_count }
    requires coordinator_le_last_coordinator { clock.coordinator ≤ last_coordinator }
    ensures { result ≡ time_right kind time clock }
{
    if kind == IDLE {
        return time == 0;
    }
    1 <= clock.last && time == clock.last * settings::COORDINATOR_COUNT + clock.coordinator
}

// How many bricks are named.
#[tactic(auto, unfolding(crate::specs::Sound::named_count))]
fn named_count(m: usize, op: Op) -> usize
    ensures { result ≡ named_count m op }
{
    if is_reading(op.kind) && op.phase == WRITE {
        m
    } else {
        0
    }
}

impl Coordinator {
    // Whether the bricks named and the tally keep their rules.
    #[tactic(auto, unfolding(crate::specs::Sound::filled_right))]
    fn filled_right(&self, n: usize, m: usize) -> bool
        requires { (n ≤ max_bricks) × (self.now.op.first < n) }
        ensures { result ≡ filled_right n m self.now }
    {
        let op = self.op;
        let round = Round {
            n,
            targets: target_count(m, op.kind),
            phase: op.phase,
            first: op.first,
        };
        bricks_right(n, named_count(m, op), self.bricks)
            && round.tally_right(&self.tally)
            && message::members_of(self.tally.counted, n) < settings::quorum_of(n, m)
    }

    // Whether the record is for these settings and keeps every rule.
    #[tactic(auto, unfolding(crate::specs::Sound::sound_record, crate::specs::Sound::same_geometry))]
    pub fn sound(&self, given: Geometry) -> bool
        requires { given.n ≤ max_bricks }
        ensures { result ≡ sound_record given.n given.m given.size given.stripes self.now }
    {
        self.geometry == given && self.rules_kept(given.n, given.m, given.stripes)
    }

    // Whether the record keeps every rule but that of the settings.
    #[tactic(auto, unfolding(crate::specs::Sound::rules_kept, settings::specs::Times::max_count))]
    fn rules_kept(&self, n: usize, m: usize, stripes: usize) -> bool
        requires { n ≤ max_bricks }
        ensures { result ≡ rules_kept n m stripes self.now }
    {
        let op = self.op;
        self.clock.coordinator <= settings::LAST_COORDINATOR
            && self.clock.last <= settings::MAX_COUNT
            && op.first < n
            && op.stripe < stripes
            && block_low(m, op)
            && op_right(op)
            && time_right(op.kind, op.time, self.clock)
            && self.filled_right(n, m)
    }
}

// Messages and replies (document 01, "What a brick does", "What a coordinator does"): structs by value with a number for their kind,
// so that an unknown kind can be refused. A block goes beside them in a slice.
// inner: call `volume::receive`
#![tactic(auto)]

ghost use Rattle.std.specs.Prelude.{◌≡◌, ◌≤◌};
ghost use Rattle.settings.specs.Ranges.{max_bricks};
ghost use Rattle.settings.specs.Refusal.{refusal_in};
ghost use Rattle.message.specs.Flags.{members, flags_within, brick_set};
ghost use Rattle.message.specs.Messages.{round_right, found_right, targets_right, kind_right, message_refusal};
ghost use Rattle.message.specs.Messages.{names_block, message_block_refusal, reply_right, reply_refusal};
ghost use Rattle.message.specs.Messages.{is_silent, stores_entry, compares, comparison_right};

use settings::Refusal;

// stays: numbers and no enum, as the fields `kind` and `comparison` below hold them: an unknown one is refused with 10 (`Message::check`,
// `Reply::check`), and definitions and theorems read these fields as numbers.
pub const READ: u8 = 1;

pub const ORDER: u8 = 2;

pub const ORDER_READ: u8 = 3;

// The first round of a block write: Order-and-read that gives newest times, and the block of one brick.
pub const ORDER_BLOCK: u8 = 4;

pub const WRITE: u8 = 5;

pub const MODIFY: u8 = 6;

pub const TRIM: u8 = 7;

pub const DROP: u8 = 8;

// The comparison that said no: the newest time, the promise, a full log; none with a yes.
pub const NO_COMPARISON: u8 = 0;

pub const NEWER_TIME: u8 = 1;

pub const PROMISE_AHEAD: u8 = 2;

pub const FULL_LOG: u8 = 3;

// A block read has one target.
pub const BLOCK_TARGETS: usize = 1;

// The round that a start opens; a write stores in the second, a read recovers from the second on and stores from the third on.
pub const FIRST_ROUND: u64 = 1;

pub const SECOND_ROUND: u64 = 2;

pub const THIRD_ROUND: u64 = 3;

pub const LAST_ROUND: u64 = 1000;

// stripe: the number of the stripe that it is about. max: Order-and-read only. old: the old time, Modify only. block: the number of a data
// block, the first round of a block write and Modify only. targets: Read only, a flag a brick.
#[derive(Clone, Copy)]
pub struct Message {
    pub kind: u8,
    pub stripe: usize,
    pub time: u64,
    pub round: u64,
    pub max: u64,
    pub old: u64,
    pub block: usize,
    pub targets: [u8; settings::MAX_BRICKS],
}

// stripe: that of the message. found: the newest time in a reply to Read or to the first round of a block write, the entry's time in one to
// Order-and-read. held: a block goes with it. comparison: the one that said no.
#[derive(Clone, Copy)]
pub struct Reply {
    pub kind: u8,
    pub brick: usize,
    pub stripe: usize,
    pub time: u64,
    pub round: u64,
    pub yes: bool,
    pub found: u64,
    pub held: bool,
    pub comparison: u8,
}

// How many bricks below n are in a set.
pub fn members_of(flags: [u8; settings::MAX_BRICKS], n: usize) -> usize
    requires { n ≤ max_bricks }
    ensures { result ≡ members flags n }
{
    flags[..n].iter().filter(|flag| **flag == 1).count()
}

// Whether the flags are 0 or 1, and 0 for what is no brick below n.
pub fn flags_within(flags: [u8; settings::MAX_BRICKS], n: usize) -> bool
    ensures { result ≡ flags_within flags n max_bricks }
{
    (0..settings::MAX_BRICKS).all(|i| flags[i] <= u8::from(i < n))
}

// Whether a round's number is 1 to the last.
#[tactic(auto, unfolding(crate::specs::Messages::round_right))]
pub fn round_right(round: u64) -> bool
    ensures { result ≡ round_right round }
{
    FIRST_ROUND <= round && round <= LAST_ROUND
}

// Whether the flags are those of m bricks below n.
#[tactic(auto, unfolding(crate::specs::Flags::brick_set))]
pub fn brick_set(flags: [u8; settings::MAX_BRICKS], n: usize, m: usize) -> bool
    requires { n ≤ max_bricks }
    ensures { result ≡ brick_set flags n m }
{
    flags_within(flags, n) && members_of(flags, n) == m
}

// Whether the flags are those of m bricks below n, or of one brick below m.
#[tactic(auto, unfolding(crate::specs::Messages::targets_right))]
fn targets_right(targets: [u8; settings::MAX_BRICKS], n: usize, m: usize) -> bool
    requires { (n ≤ max_bricks) × (m ≤ max_bricks) }
    ensures { result ≡ targets_right n m targets }
{
    brick_set(targets, n, m) || brick_set(targets, m, BLOCK_TARGETS)
}

// Whether a number is 0 or a valid time.
#[tactic(auto, unfolding(crate::specs::Messages::found_right))]
pub fn found_right(t: u64) -> bool
    ensures { result ≡ found_right t }
{
    t == 0 || settings::is_time(t)
}

// Whether messages of a kind name a data block.
#[tactic(auto, unfolding(crate::specs::Messages::names_block))]
pub fn names_block(kind: u8) -> bool
    ensures { result ≡ names_block kind }
{
    kind == ORDER_BLOCK || kind == MODIFY
}

// Whether messages of a kind have no reply.
#[tactic(auto, unfolding(crate::specs::Messages::is_silent))]
pub fn is_silent(kind: u8) -> bool
    ensures { result ≡ is_silent kind }
{
    kind == TRIM || kind == DROP
}

// Whether messages of a kind store an entry.
#[tactic(auto, unfolding(crate::specs::Messages::stores_entry))]
pub fn stores_entry(kind: u8) -> bool
    ensures { result ≡ stores_entry kind }
{
    kind == WRITE || kind == MODIFY
}

// Whether the answer to a kind makes a comparison.
#[tactic(auto, unfolding(crate::specs::Messages::compares))]
fn makes_comparison(kind: u8, comparison: u8) -> bool
    ensures { result ≡ compares kind comparison }
{
    match comparison {
        NEWER_TIME => kind != READ,
        PROMISE_AHEAD => true,
        FULL_LOG => stores_entry(kind),
        _ => false,
    }
}

// Whether a reply of a kind has the comparison that its answer allows: none on a yes, one that the kind makes on a no.
#[tactic(auto, unfolding(crate::specs::Messages::comparison_right))]
pub fn comparison_right(kind: u8, granted: bool, comparison: u8) -> bool
    ensures { result ≡ comparison_right kind granted comparison }
{
    if granted {
        comparison == NO_COMPARISON
    } else {
        makes_comparison(kind, comparison)
    }
}

impl Message {
    // The rules that a kind adds.
    #[tactic(auto, unfolding(crate::specs::Messages::kind_right, settings::specs::Times::no_upper_end))]
    fn kind_right(self, n: usize, m: usize) -> bool
        requires { (n ≤ max_bricks) × (m ≤ max_bricks) }
        ensures { result ≡ kind_right n m self }
    {
        match self.kind {
            ORDER_READ => self.max <= settings::NO_UPPER_END,
            READ => targets_right(self.targets, n, m),
            MODIFY => found_right(self.old),
            kind => READ <= kind && kind <= DROP,
        }
    }

    // Refused with 14 where it names a data block that a stripe does not have.
    #[tactic(auto, unfolding(crate::specs::Messages::message_block_refusal))]
    pub fn check_block(self, m: usize) -> Result<(), Refusal>
        ensures { refusal_in result ≡ message_block_refusal m self }
    {
        if names_block(self.kind) {
            return settings::check_data_block(m, self.block);
        }
        Ok(())
    }

    // Refused with 10 for a message that no coordinator sends.
    #[tactic(auto, unfolding(crate::specs::Messages::message_refusal))]
    pub fn check(self, n: usize, m: usize) -> Result<(), Refusal>
        requires { (n ≤ max_bricks) × (m ≤ max_bricks) }
        ensures { refusal_in result ≡ message_refusal n m self }
    {
        if settings::is_time(self.time) && round_right(self.round) && self.kind_right(n, m) {
            return Ok(());
        }
        Err(Refusal::BadMessage)
    }
}

impl Reply {
    // Whether the fields are such as a brick gives.
    #[tactic(auto, unfolding(crate::specs::Messages::reply_right))]
    fn right(self) -> bool
        ensures { result ≡ reply_right self }
    {
        READ <= self.kind
            && self.kind <= MODIFY
            && settings::is_time(self.time)
            && round_right(self.round)
            && found_right(self.found)
            && comparison_right(self.kind, self.yes, self.comparison)
    }

    // Refused with 3 for a brick not below n, with 10 for a reply that no brick gives.
    #[tactic(auto, unfolding(crate::specs::Messages::reply_refusal, settings::specs::Refusal::first_refusal))]
    pub fn check(self, n: usize) -> Result<(), Refusal>
        ensures { refusal_in result ≡ reply_refusal n self }
    {
        if n <= self.brick {
            return Err(Refusal::BadNumber);
        }
        if self.right() {
            return Ok(());
        }
        Err(Refusal::BadMessage)
    }
}

// The settings of a set, the quorum, and times (document 01, "Settings and the code", "Times"); the stripes of a volume (E1).
#![tactic(auto)]

ghost use Rattle.std.specs.Prelude.{◌≡◌, IfOk};
ghost use Rattle.settings.specs.Ranges.{CodeRange, SettingsRange, settings_refusal, code_refusal};
ghost use Rattle.settings.specs.Ranges.{stripe_count_refusal, stripe_refusal, data_block_refusal, quorum};
ghost use Rattle.settings.specs.Refusal.{number_of_refusal, refusal_in};
ghost use Rattle.settings.specs.Times.{draw_in, draw_of, draw_refusal, valid_time};

// "n is 1 to 16": so a set of bricks has 16 places.
pub const MAX_BRICKS: usize = 16;

// "Block size 1 to 256 bytes".
pub const MAX_SIZE: usize = 256;

// "Log capacity 2 to 32 entries".
pub const MIN_CAPACITY: usize = 2;

pub const MAX_CAPACITY: usize = 32;

// "A volume has 1 to 64 stripes".
pub const MAX_STRIPES: usize = 64;

// Coordinators are numbered 0 to 15.
pub const COORDINATOR_COUNT: u64 = 16;

pub const LAST_COORDINATOR: u64 = 15;

// The refusals (document 01, "Refused by number, lowest first"), by their numbers.
#[derive(Clone, Copy, PartialEq, Eq)]
pub enum Refusal {
    BadSetting = 1,
    BadLength = 2,
    BadNumber = 3,
    BadBrickSet = 4,
    BadCheck = 5,
    BadRecord = 6,
    BadReading = 7,
    ClockSpent = 8,
    Busy = 9,
    BadMessage = 10,
    StrayReply = 11,
    BadLine = 12,
    BadStripe = 13,
    BadBlock = 14,
    BlocksDisagree = 15,
}

// The number of what is not refused.
pub const PASSED: u32 = 0;

impl Refusal {
    // The number of a refusal.
    pub fn number(self) -> u32
        ensures { result ≡ number_of_refusal self }
    {
        self as u32
    }
}

// The number of an answer, for callers that take numbers: 0 for one that is not refused.
pub fn number_of<T: Copy>(answer: Result<T, Refusal>) -> u32
    ensures { result ≡ refusal_in answer }
{
    match answer {
        Ok(_) => PASSED,
        Err(refusal) => refusal.number(),
    }
}

// The largest count of a time, 2^40 - 1.
pub const MAX_COUNT: u64 = 1099511627775;

// "No upper end", 2^44.
pub const NO_UPPER_END: u64 = 17592186044416;

// n bricks, m data blocks, bytes a block, entries a log, stripes of the volume.
#[derive(Clone, Copy)]
pub struct Settings {
    pub n: usize,
    pub m: usize,
    pub size: usize,
    pub capacity: usize,
    pub stripes: usize,
}

// Settings that are all in range.
#[derive(Clone, Copy)]
pub struct Checked {
    pub settings: Settings,
    ghost in_range: { SettingsRange settings },
}

// Refused with 1 where n, m or the block size is outside its range.
#[tactic(auto, unfolding(crate::specs::Ranges::code_refusal, crate::specs::Ranges::bricks_in_range, crate::specs::Ranges::size_in_range))]
pub fn check_code(n: usize, m: usize, size: usize) -> Result<(), Refusal>
    ensures { refusal_in result ≡ code_refusal n m size }
{
    if n < 1 {
        return Err(Refusal::BadSetting);
    }
    if MAX_BRICKS < n {
        return Err(Refusal::BadSetting);
    }
    if m < 1 {
        return Err(Refusal::BadSetting);
    }
    if n < m {
        return Err(Refusal::BadSetting);
    }
    if size < 1 {
        return Err(Refusal::BadSetting);
    }
    if MAX_SIZE < size {
        return Err(Refusal::BadSetting);
    }
    Ok(())
}

// n bricks, m data blocks and bytes a block, all three in range: what inner routines take, so that they ask nothing of their callers.
#[derive(Clone, Copy)]
pub struct Code {
    pub n: usize,
    pub m: usize,
    pub size: usize,
    ghost in_range: { CodeRange n m size },
}

impl Code {
    // The code of three numbers, refused with 1 where one is outside its range.
    #[tactic(auto, using(crate::proofs::Laws::RangeLaws::code_passed))]
    pub fn new(n: usize, m: usize, size: usize) -> Result<Code, Refusal>
        ensures value { refusal_in result ≡ code_refusal n m size }
        ensures code { IfOk result (λ (c : Code). (c.n ≡ n) × (c.m ≡ m) × (c.size ≡ size)) }
    {
        check_code(n, m, size)?;
        Ok(Code { n, m, size })
    }
}

// Refused with 1 where a volume has no such number of stripes.
#[tactic(auto, unfolding(crate::specs::Ranges::stripe_count_refusal, crate::specs::Ranges::stripes_in_range))]
pub fn check_stripe_count(stripes: usize) -> Result<(), Refusal>
    ensures { refusal_in result ≡ stripe_count_refusal stripes }
{
    if stripes < 1 {
        return Err(Refusal::BadSetting);
    }
    if MAX_STRIPES < stripes {
        return Err(Refusal::BadSetting);
    }
    Ok(())
}

// Refused with 13 for a stripe that the volume does not have. inner: a stripe count out of range is refused before
// (`Settings::check`, `check_stripe_count`).
#[tactic(auto, unfolding(crate::specs::Ranges::stripe_refusal))]
pub fn check_stripe(stripes: usize, stripe: usize) -> Result<(), Refusal>
    ensures { refusal_in result ≡ stripe_refusal stripes stripe }
{
    if stripes <= stripe {
        return Err(Refusal::BadStripe);
    }
    Ok(())
}

// Refused with 14 for a data block that a stripe does not have. inner: an m out of range is refused before
// (`Settings::check`, `check_code`).
#[tactic(auto, unfolding(crate::specs::Ranges::data_block_refusal))]
pub fn check_data_block(m: usize, block: usize) -> Result<(), Refusal>
    ensures { refusal_in result ≡ data_block_refusal m block }
{
    if m <= block {
        return Err(Refusal::BadBlock);
    }
    Ok(())
}

impl Settings {
    // The settings, checked: refused with 1 where one is outside its range.
    #[tactic(auto, using(crate::proofs::Laws::RangeLaws::settings_passed))]
    pub fn checked(self) -> Result<Checked, Refusal>
        ensures value { refusal_in result ≡ settings_refusal self }
        ensures settings { IfOk result (λ (c : Checked). c.settings ≡ self) }
    {
        self.check()?;
        Ok(Checked { settings: self })
    }

    // Refused with 1 where a setting is outside its range.
    #[tactic(auto, unfolding(crate::specs::Ranges::settings_refusal, crate::specs::Ranges::in_range, crate::specs::Ranges::code_refusal, crate::specs::Ranges::capacity_in_range, crate::specs::Ranges::stripe_count_refusal))]
    pub fn check(self) -> Result<(), Refusal>
        ensures { refusal_in result ≡ settings_refusal self }
    {
        check_code(self.n, self.m, self.size)?;
        if self.capacity < MIN_CAPACITY {
            return Err(Refusal::BadSetting);
        }
        if MAX_CAPACITY < self.capacity {
            return Err(Refusal::BadSetting);
        }
        check_stripe_count(self.stripes)
    }
}

// The bricks of a quorum: n less half of what n is above m.
#[tactic(auto, unfolding(crate::specs::Ranges::quorum, crate::specs::Ranges::faults))]
pub fn quorum_of(n: usize, m: usize) -> usize
    ensures { result ≡ quorum n m }
{
    if n <= m {
        return n;
    }
    n - (n - m) / 2
}

// A coordinator's clock: its number and the last count it gave.
#[derive(Clone, Copy)]
pub struct Clock {
    pub coordinator: u64,
    pub last: u64,
}

impl Clock {
    // Why the clock gives no time at a reading.
    #[tactic(auto, unfolding(crate::specs::Times::draw_refusal, crate::specs::Times::max_count))]
    pub fn check_reading(self, reading: u64) -> Result<(), Refusal>
        ensures { refusal_in result ≡ draw_refusal self reading }
    {
        if LAST_COORDINATOR < self.coordinator {
            return Err(Refusal::BadNumber);
        }
        if MAX_COUNT < self.last {
            return Err(Refusal::BadRecord);
        }
        if MAX_COUNT < reading {
            return Err(Refusal::BadReading);
        }
        if MAX_COUNT <= self.last {
            return Err(Refusal::ClockSpent);
        }
        Ok(())
    }

    // The time of a reading, with the clock that follows; or the refusal.
    #[tactic(auto, unfolding(crate::specs::Times::draw_of, crate::specs::Times::draw_refusal, crate::specs::Times::next_count, crate::specs::Times::time_of, crate::specs::Times::advanced, crate::specs::Times::max_count))]
    pub fn draw(self, reading: u64) -> Result<(u64, Clock), Refusal>
        ensures { draw_in result ≡ draw_of self reading }
    {
        self.check_reading(reading)?;
        let least = self.last + 1;
        let count = reading.max(least);
        Ok((
            count * COORDINATOR_COUNT + self.coordinator,
            Clock {
                coordinator: self.coordinator,
                last: count,
            },
        ))
    }
}

// Whether a number is a valid time.
#[tactic(auto, unfolding(crate::specs::Times::valid_time, crate::specs::Times::time_of, crate::specs::Times::no_upper_end))]
pub fn is_time(t: u64) -> bool
    ensures { result ≡ valid_time t }
{
    COORDINATOR_COUNT <= t && t < NO_UPPER_END
}

// What the counted replies of a round say, brick by brick, and rows of bricks (document 01, "What a coordinator does").
// inner: call `coordinator::take_reply`
#![tactic(auto)]

ghost use Rattle.std.specs.Prelude.{◌≡◌, ◌≤◌, ◌<◌};
ghost use Rattle.byte_lists.specs.Each.{some};
ghost use Rattle.coord_tally.specs.Counting.{said_no, other_time, missing, highest, at_time, at_times, picked, upward, target_row, target_flag, target_flags};
ghost use Rattle.settings.specs.Count.{count};
ghost use Rattle.settings.specs.Ranges.{max_bricks};

use settings::MAX_BRICKS;
use std::array;

// Whether a counted reply below n says no.
pub fn any_no(counted: [u8; MAX_BRICKS], granted: [u8; MAX_BRICKS], n: usize) -> bool
    requires { n ≤ max_bricks }
    ensures { result ≡ some (said_no counted granted) n }
{
    (0..n).any(|b| counted[b] == 1 && granted[b] != 1)
}

// The highest time found among the bricks of a set; 0 if there is none.
// stays: flags and times, here and in `count_at`, and not the tally: the flags are its `counted` at some calls and its `held` at others.
#[tactic(auto, unfolding(crate::specs::Counting::highest, message::specs::Flags::member))]
pub fn highest_of(flags: [u8; MAX_BRICKS], found: [u64; MAX_BRICKS], n: usize) -> u64
    requires { n ≤ max_bricks }
    ensures { result ≡ highest flags found n }
{
    let mut h = 0;
    for b in 0..n {
        if flags[b] == 1 {
            h = found[b].max(h);
        }
    }
    h
}

// Whether a brick is in a set and found this time.
#[tactic(auto, unfolding(crate::specs::Counting::at_time))]
fn at_time(flag: u8, found: u64, time: u64) -> bool
    ensures { result ≡ at_time flag found time }
{
    flag == 1 && found == time
}

// Whether a counted reply found another time.
pub fn any_other(counted: [u8; MAX_BRICKS], found: [u64; MAX_BRICKS], time: u64, n: usize) -> bool
    requires { n ≤ max_bricks }
    ensures { result ≡ some (other_time counted found time) n }
{
    (0..n).any(|b| counted[b] == 1 && found[b] != time)
}

// Whether a target is not counted.
pub fn any_missing(n: usize, m: usize, first: usize, counted: [u8; MAX_BRICKS]) -> bool
    requires n_le_max_bricks { n ≤ max_bricks }
    requires first_lt_n { first < n }
    ensures { result ≡ some (missing n m first counted) n }
{
    (0..n).any(|b| coord_record::is_target(n, m, first, b) && counted[b] != 1)
}

// How many bricks of a set found this time.
pub fn count_at(flags: [u8; MAX_BRICKS], found: [u64; MAX_BRICKS], time: u64, n: usize) -> usize
    requires { n ≤ max_bricks }
    ensures { result ≡ count (at_times flags found time) n }
{
    (0..n)
        .filter(|b| at_time(flags[*b], found[*b], time))
        .count()
}

// The first m bricks by number among those of a set that found this time, then 0.
pub fn pick(
    flags: [u8; MAX_BRICKS],
    found: [u64; MAX_BRICKS],
    time: u64,
    n: usize,
    m: usize,
) -> [u8; MAX_BRICKS]
    requires { n ≤ max_bricks }
    ensures { result ≡ picked flags found time n m }
{
    let mut row = [0u8; MAX_BRICKS];
    let mut k = 0;
    for brick in 0..n {
        if at_time(flags[brick], found[brick], time) && k < m {
            row[k] = brick as u8;
            k += 1;
        }
    }
    row
}

// The brick that is i above the first, wrapping at n.
#[tactic(auto, unfolding(crate::specs::Counting::upward))]
fn upward_of(n: usize, first: usize, i: usize) -> u8
    requires n_le_max_bricks { n ≤ max_bricks }
    requires first_lt_n { (first < n) × (i < n) }
    ensures { result ≡ upward n first i }
{
    let b = first + i;
    if b < n { b as u8 } else { (b - n) as u8 }
}

// The targets of a read, in their order, then 0.
pub fn target_row(n: usize, m: usize, first: usize) -> [u8; MAX_BRICKS]
    requires n_le_max_bricks { (n ≤ max_bricks) × (m ≤ n) }
    requires first_lt_n { first < n }
    ensures { result ≡ target_row n m first }
{
    array::from_fn(|i| if i < m { upward_of(n, first, i) } else { 0 })
}

// 1 for a target, else 0.
#[tactic(auto, unfolding(crate::specs::Counting::target_flag))]
fn target_flag(n: usize, m: usize, first: usize, b: usize) -> u8
    requires { first < n }
    ensures { result ≡ target_flag n m first b }
{
    u8::from(b < n && coord_record::is_target(n, m, first, b))
}

// The targets of a read as a set.
pub fn target_flags(n: usize, m: usize, first: usize) -> [u8; MAX_BRICKS]
    requires { first < n }
    ensures { result ≡ target_flags n m first }
{
    array::from_fn(|b| target_flag(n, m, first, b))
}

// What a brick answers a message, by three comparisons (document 01, "What a brick does").
// inner: call `brick::receive`
#![tactic(auto)]

ghost use Rattle.std.specs.Prelude.{◌≡◌};
ghost use Rattle.brick_answer.specs.Comparisons.{newer_says_no, promise_says_no, full_says_no, first_no, comparison_in};

use message::{MODIFY, Message, NO_COMPARISON, READ};

// The comparison that says no, by its number in a reply.
#[derive(Clone, Copy, PartialEq, Eq)]
pub enum Comparison {
    NewerTime = 1,
    PromiseAhead = 2,
    FullLog = 3,
}

// Whether the newest time says no.
#[tactic(auto, unfolding(crate::specs::Comparisons::newer_says_no, crate::specs::Comparisons::above_newest))]
fn newer_says_no(newest: u64, msg: Message) -> bool
    ensures { result ≡ newer_says_no newest msg }
{
    match msg.kind {
        READ => false,
        MODIFY => newest != msg.old || msg.time <= newest,
        _ => msg.time <= newest,
    }
}

// Whether the promise says no.
#[tactic(auto, unfolding(crate::specs::Comparisons::promise_says_no, crate::specs::Comparisons::not_below_promise))]
fn promise_says_no(newest: u64, promise: u64, msg: Message) -> bool
    ensures { result ≡ promise_says_no newest promise msg }
{
    let time = if msg.kind == READ { newest } else { msg.time };
    time < promise
}

// Whether a full log says no.
#[tactic(auto, unfolding(crate::specs::Comparisons::full_says_no, crate::specs::Comparisons::has_free))]
fn full_says_no(capacity: usize, count: usize, msg: Message) -> bool
    ensures { result ≡ full_says_no capacity count msg }
{
    message::stores_entry(msg.kind) && capacity <= count
}

// The comparison that says no, newer time first, then promise, then full log; none with a yes.
#[tactic(auto, unfolding(crate::specs::Comparisons::first_no))]
pub fn comparison_of(
    capacity: usize,
    count: usize,
    newest: u64,
    promise: u64,
    msg: Message,
) -> Option<Comparison>
    ensures { comparison_in result ≡ first_no capacity count newest promise msg }
{
    if newer_says_no(newest, msg) {
        return Some(Comparison::NewerTime);
    }
    if promise_says_no(newest, promise, msg) {
        return Some(Comparison::PromiseAhead);
    }
    if full_says_no(capacity, count, msg) {
        return Some(Comparison::FullLog);
    }
    None
}

// The number of an answer's comparison, as a reply has it.
pub fn number_of(said: Option<Comparison>) -> u8
    ensures { result ≡ comparison_in said }
{
    match said {
        Some(comparison) => comparison as u8,
        None => NO_COMPARISON,
    }
}

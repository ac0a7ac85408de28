// What a coordinator's routine answered, on the bench: kept, sent and printed, where its messages stay within message 127 (document 01, "The bench").
// inner: call `bench_player::play_line`
#![tactic(auto)]

ghost use Rattle.std.specs.Prelude.{◌≡◌, ◌≤◌, IfOk, length};
ghost use Rattle.coord_apply.specs.Answers.{answered, answer_in};
ghost use Rattle.coord_apply.specs.declared.Answer.{Answer};
ghost use Rattle.coord_record.specs.declared.Coordinator.{Coordinator};
ghost use Rattle.bench_commit.specs.Workers.{Lists, Round, Seats, Copies, Answers};
ghost use Rattle.bench_commit.specs.Workers.{sent_after_answer};
ghost use Rattle.bench_limits.specs.Limits.{last_message, numbers_length, bytes_length};
ghost use Rattle.bench_state.specs.Workers.{Fits};

use bench_limits::LAST_MESSAGE;
use bench_rules::After;
use bench_sent::Sources;
use bench_state::Bench;
use coord_apply::Answer;
use settings::{Refusal, Settings};

// The broadcasts of an answer sent, in their order, with the blocks from the buffers that it left.
#[tactic(auto, using(crate::proofs::Laws::CommitLaws::round_none, crate::proofs::Laws::CommitLaws::round_one, crate::proofs::Laws::CommitLaws::round_two))]
fn send(
    s: Settings,
    sent: usize,
    a: Answer,
    sources: Sources,
    numbers: &mut [u64],
    bytes: &mut [u8],
)
    requires fits { Fits s × Copies s sources.blocks.now sources.stripe.now sources.coded.now × (sent_after_answer s.n sent a.sent ≤ last_message) }
    requires lists { Lists s.m a.sent a.message a.second × (length numbers.old ≡ numbers_length) × (length bytes.old ≡ bytes_length) }
    ensures { Round s sent a.sent a.message a.second sources.entry.blocks.now sources.entry.stripe.now sources.entry.coded.now
        numbers.old bytes.old numbers.new bytes.new }
{
    if a.sent == 0 {
        return;
    }
    bench_sent::send_all(s.n, s.size, sent, a.message, sources, numbers, bytes);
    if a.sent == 1 {
        return;
    }
    bench_sent::send_all(s.n, s.size, sent + s.n, a.second, sources, numbers, bytes)
}

// What a coordinator's routine answered, with the buffers it left, is kept, sent and printed.
// stays: tried, the proof did not close (the four buffers and the text as one struct of `&mut`: the borrow check does not cover a call that is
// lent one field while another is read).
#[tactic(auto, using(crate::proofs::Laws::CommitLaws::answers_kept))]
fn keep_answer(
    b: Bench,
    c: usize,
    a: Answer,
    sent: usize,
    sources: Sources,
    kept: &mut [u8],
    numbers: &mut [u64],
    bytes: &mut [u8],
    at: usize,
    out: &mut [u8],
) -> After
    requires seats { Seats b c kept.old numbers.old bytes.old at out.old }
    requires copies { Copies b.settings sources.blocks.now sources.stripe.now sources.coded.now }
    requires sent_value { (sent ≡ sent_after_answer b.settings.n b.sent a.sent) × (sent ≤ last_message) }
    requires lists { Lists b.settings.m a.sent a.message a.second }
    ensures { Answers b c (answered a) sources.entry.blocks.now sources.entry.stripe.now sources.entry.coded.now
        kept.old numbers.old bytes.old at out.old result
        kept.new numbers.new bytes.new out.new }
{
    send(b.settings, b.sent, a, sources, numbers, bytes);
    bench_state::keep(c, sources.blocks, sources.stripe, kept);
    let used = bench_print::put_ended(c, a.seen, sources.stripe, at, out);
    let bench = bench_state::with_coordinator(b, c, a.next, sent);
    After { bench, used }
}

// The same, unless it is refused or would send past message 127.
#[tactic(auto, unfolding(crate::specs::Workers::sent_after_answer), using(crate::proofs::Laws::CommitLaws::sent_bound, crate::proofs::Laws::CommitLaws::answers_refused, crate::proofs::Laws::CommitLaws::answers_past))]
pub fn commit(
    b: Bench,
    c: usize,
    answer: Result<Answer, Refusal>,
    sources: Sources,
    kept: &mut [u8],
    numbers: &mut [u64],
    bytes: &mut [u8],
    at: usize,
    out: &mut [u8],
) -> After
    requires seats { Seats b c kept.old numbers.old bytes.old at out.old }
    requires copies { Copies b.settings sources.blocks.now sources.stripe.now sources.coded.now }
    requires lists { IfOk answer (λ (a : Answer). Lists b.settings.m a.sent a.message a.second) }
    ensures { (old : Coordinator) → Answers b c (answer_in old answer) sources.entry.blocks.now sources.entry.stripe.now sources.entry.coded.now
        kept.old numbers.old bytes.old at out.old result
        kept.new numbers.new bytes.new out.new }
{
    let Ok(a) = answer else {
        return bench_rules::refuse_as(b, answer.unwrap_err(), at, out);
    };
    let sent = b.sent + a.sent * b.settings.n;
    if LAST_MESSAGE < sent {
        return bench_rules::refuse_as(b, Refusal::BadLine, at, out);
    }
    keep_answer(b, c, a, sent, sources, kept, numbers, bytes, at, out)
}

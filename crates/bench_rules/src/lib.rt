// The rules of the bench's lines (document 01, "The bench") are definitions, in specs/Play. Here: what a part of a line answers, and one refusal.
// inner: call `bench_player::play_line`
#![tactic(auto)]

ghost use Rattle.std.specs.Prelude.{◌+◌, ◌≤◌, length};
ghost use Rattle.bench_rules.specs.Play.{refuses};
ghost use Rattle.bench_rules.specs.Turning.{Lent, world_in};
ghost use Rattle.bench_rules.specs.Workers.{Turned};
ghost use Rattle.settings.specs.Refusal.{number_of_refusal};
ghost use Rattle.bench_limits.specs.Limits.{last_message, line_room};

use bench_state::Bench;
use settings::Refusal;

// The bench after a line or a part of one, and how many bytes of the printed text's buffer are used.
#[derive(Clone, Copy)]
pub struct After {
    pub bench: Bench,
    pub used: usize,
}

// One refusal, by its number, printed.
#[tactic(auto, unfolding(crate::specs::Play::refuses))]
pub fn refuse(b: Bench, number: u32, at: usize, out: &mut [u8]) -> After
    requires { (b.sent ≤ last_message) × (at + line_room ≤ length out.old) }
    ensures { (l : Lent) → Turned b l at out.old (refuses (world_in b l) number) result l out.new }
{
    let used = bench_print::put_refused(number, at, out);
    After { bench: b, used }
}

// One refusal, printed.
pub fn refuse_as(b: Bench, refusal: Refusal, at: usize, out: &mut [u8]) -> After
    requires { (b.sent ≤ last_message) × (at + line_room ≤ length out.old) }
    ensures { (l : Lent) → Turned b l at out.old (refuses (world_in b l) (number_of_refusal refusal)) result l out.new }
{
    refuse(b, refusal.number(), at, out)
}

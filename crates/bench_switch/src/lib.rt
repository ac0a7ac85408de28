// A brick of the bench goes down or comes up (document 01, "The bench").
// inner: call `bench_player::play_line`
#![tactic(auto)]

ghost use Rattle.std.specs.Prelude.{◌≡◌, cond, ◌≤◌, eqb, length};
ghost use Rattle.bench_limits.specs.Limits.{last_message, up_flag, text_length};
ghost use Rattle.bench_rules.specs.Play.{switches};
ghost use Rattle.bench_rules.specs.Turning.{Lent, world_in};
ghost use Rattle.bench_rules.specs.Workers.{Lined};
ghost use Rattle.bench_state.specs.Workers.{Fits};
ghost use Rattle.register.specs.Runs.{goes_down, comes_up};

use bench_rules::After;
use bench_state::Bench;
use settings::Refusal;

// A brick goes DOWN or comes UP, by the flag.
pub fn switch_at(b: Bench, brick: u64, flag: u8, out: &mut [u8]) -> After
    requires { Fits b.settings × (b.sent ≤ last_message) × (length out.old ≡ text_length) }
    ensures { (l : Lent) →
        let e = cond (eqb flag up_flag) (comes_up brick) (goes_down brick) in
        Lined b l out.old (switches b.settings (world_in b l) brick e) result l out.new }
{
    let place = brick as usize;
    if b.settings.n <= place {
        return bench_rules::refuse_as(b, Refusal::BadNumber, 0, out);
    }
    let bench = bench_state::with_up(b, place, flag);
    After { bench, used: 0 }
}

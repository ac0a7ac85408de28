// A carried reply at its coordinator (document 01, "The bench"): counted, or refused.
// inner: call `bench_player::play_line`
#![tactic(auto)]

ghost use Rattle.std.specs.Prelude.{◌≡◌, true, ◌<◌};
ghost use Rattle.bench_commit.specs.Workers.{Plays, Seats};
ghost use Rattle.bench_rules.specs.Play.{carries};
ghost use Rattle.bench_sent.specs.Sent.{is_reply, item_at};
ghost use Rattle.register.specs.Runs.{World};

use bench_commit::commit;
use bench_limits::{BLOCK_PLACE, ROW_BYTES, STRIPE_ROOM};
use bench_rules::After;
use bench_sent::Sources;
use bench_state::Bench;
use settings::Refusal;

// "coordinators 0 to 3"
const COORDINATORS: u64 = bench_limits::COORDINATORS as u64;

// A carried reply, in row k, on copies of what the coordinator keeps.
pub fn carry_reply(
    b: Bench,
    k: usize,
    kept: &mut [u8],
    numbers: &mut [u64],
    bytes: &mut [u8],
    at: usize,
    out: &mut [u8],
) -> After
    requires seats { Seats b 0 kept.old numbers.old bytes.old at out.old }
    requires k_lt_sent { (k < b.sent) × (is_reply numbers.old k ≡ true) }
    ensures { let s = b.settings in
        Plays b (λ (w : World). carries s w k (item_at s.size numbers.old bytes.old k))
        kept.old numbers.old bytes.old at out.old result
        kept.new numbers.new bytes.new out.new }
{
    let reply = bench_sent::reply_at(numbers, k);
    let c = reply.time % settings::COORDINATOR_COUNT;
    if COORDINATORS <= c {
        return bench_rules::refuse_as(b, Refusal::BadNumber, at, out);
    }
    let seat = c as usize;
    let s = b.settings;
    let all = s.n * s.size;
    let data = s.m * s.size;
    let mut blocks = [0u8; STRIPE_ROOM];
    let mut stripe = [0u8; STRIPE_ROOM];
    let mut coded = [0u8; STRIPE_ROOM];
    bench_state::fetch(seat, kept, &mut blocks[..all], &mut stripe[..data]);
    let old = bench_state::coordinator_at(b, seat);
    let from = k * ROW_BYTES + BLOCK_PLACE;
    let a = coordinator::take_reply(
        bench_state::geometry_of(s),
        old,
        reply,
        &bytes[from..from + s.size],
        &mut blocks[..all],
        &mut stripe[..data],
        &mut coded[..all],
    );
    let sources = Sources {
        blocks: &blocks[..all],
        stripe: &stripe[..data],
        coded: &coded[..all],
    };
    commit(b, seat, a, sources, kept, numbers, bytes, at, out)
}

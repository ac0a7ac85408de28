// Starts and crashes at a coordinator of the bench (document 01, "The bench"): the proved routines work on copies of what the coordinator
// keeps, and what they answer counts only where its messages stay within message 127.
// inner: call `bench_player::play_line`
#![tactic(auto)]

ghost use Rattle.std.specs.Prelude.{◌≡◌, cond, not, ◌&&◌, ◌*◌, ◌≤◌, eqb, length, drop};
ghost use Rattle.bench_commit.specs.Workers.{Plays, Seats};
ghost use Rattle.bench_parse.specs.Lines.{bytes_of};
ghost use Rattle.coord_apply.specs.Answers.{answer_in};
ghost use Rattle.coord_record.specs.declared.Coordinator.{Coordinator};
ghost use Rattle.bench_rules.specs.Play.{writes, starts, crashes_at};
ghost use Rattle.register.specs.Runs.{World};
ghost use Rattle.bench_limits.specs.Limits.{stripe_room};

use bench_commit::commit;
use bench_limits::{BENCH_STRIPE, STRIPE_ROOM};
use bench_rules::After;
use bench_sent::Sources;
use bench_state::Bench;
use coord_apply::Answer;
use settings::Refusal;

// "coordinators 0 to 3"
const COORDINATORS: u64 = bench_limits::COORDINATORS as u64;

// Whether a start that is not refused has a wrong count of digits.
#[tactic(auto, using(bench_commit::proofs::Laws::CommitLaws::passed_is_ok))]
fn is_short(started: Result<Answer, Refusal>, right: bool) -> bool
    ensures { (old : Coordinator) → result ≡ (eqb (answer_in old started).refusal 0 && not right) }
{
    started.is_ok() && !right
}

// The bytes of a write from its hex digits, and whether there are two for each; else the buffer is kept.
fn read_content(line: &[u8], hex: usize, content: &mut [u8]) -> bool
    requires { (hex ≤ length line.now) × (length content.old ≤ stripe_room) }
    ensures value { result ≡ eqb (length (drop hex line.now)) (2 * length content.old) }
    ensures content_after { content.new ≡ cond result (bytes_of (drop hex line.now)) content.old }
{
    if line.len() - hex != 2 * content.len() {
        return false;
    }
    bench_parse::hex_bytes(line, hex, content);
    true
}

// stays: the new form is no plainer (these three and `bench_carry_reply::carry_reply` go alike up to the routine; one function over a closure would
// have to name in its contract the routine's step, what it answers and what it leaves in three buffers).
// "`read c clock brick`": on copies of what the coordinator keeps.
pub fn read_at(
    b: Bench,
    c: u64,
    clock: u64,
    brick: u64,
    kept: &mut [u8],
    numbers: &mut [u64],
    bytes: &mut [u8],
    out: &mut [u8],
) -> After
    requires { Seats b 0 kept.old numbers.old bytes.old 0 out.old }
    ensures { let s = b.settings in
        Plays b (λ (w : World). starts s w c clock brick)
        kept.old numbers.old bytes.old 0 out.old result
        kept.new numbers.new bytes.new out.new }
{
    if COORDINATORS <= c {
        return bench_rules::refuse_as(b, Refusal::BadNumber, 0, out);
    }
    let seat = c as usize;
    let s = b.settings;
    let all = s.n * s.size;
    let data = s.m * s.size;
    let mut blocks = [0u8; STRIPE_ROOM];
    let mut stripe = [0u8; STRIPE_ROOM];
    bench_state::fetch(seat, kept, &mut blocks[..all], &mut stripe[..data]);
    let old = bench_state::coordinator_at(b, seat);
    let a = coordinator::start_read(
        bench_state::geometry_of(s),
        old,
        BENCH_STRIPE,
        clock,
        brick as usize,
    );
    let sources = Sources {
        blocks: &blocks[..all],
        stripe: &stripe[..data],
        coded: &blocks[..all],
    };
    commit(b, seat, a, sources, kept, numbers, bytes, 0, out)
}

// "`crash c`": the same.
pub fn crash_at(
    b: Bench,
    c: u64,
    kept: &mut [u8],
    numbers: &mut [u64],
    bytes: &mut [u8],
    out: &mut [u8],
) -> After
    requires { Seats b 0 kept.old numbers.old bytes.old 0 out.old }
    ensures { let s = b.settings in
        Plays b (λ (w : World). crashes_at s w c)
        kept.old numbers.old bytes.old 0 out.old result
        kept.new numbers.new bytes.new out.new }
{
    if COORDINATORS <= c {
        return bench_rules::refuse_as(b, Refusal::BadNumber, 0, out);
    }
    let seat = c as usize;
    let s = b.settings;
    let all = s.n * s.size;
    let data = s.m * s.size;
    let mut blocks = [0u8; STRIPE_ROOM];
    let mut stripe = [0u8; STRIPE_ROOM];
    bench_state::fetch(seat, kept, &mut blocks[..all], &mut stripe[..data]);
    let old = bench_state::coordinator_at(b, seat);
    let a = coordinator::crash(bench_state::geometry_of(s), old);
    let sources = Sources {
        blocks: &blocks[..all],
        stripe: &stripe[..data],
        coded: &blocks[..all],
    };
    commit(b, seat, a, sources, kept, numbers, bytes, 0, out)
}

// "`write c clock hex`": the digits begin at a place of the line; where their count is wrong, zeros stand for the bytes.
pub fn write_at(
    b: Bench,
    c: u64,
    clock: u64,
    line: &[u8],
    hex: usize,
    kept: &mut [u8],
    numbers: &mut [u64],
    bytes: &mut [u8],
    out: &mut [u8],
) -> After
    requires seats { Seats b 0 kept.old numbers.old bytes.old 0 out.old }
    requires hex_in_bounds { hex ≤ length line.now }
    ensures { let s = b.settings in
        let digits = drop hex line.now in
        Plays b (λ (w : World). writes s w c clock digits)
        kept.old numbers.old bytes.old 0 out.old result
        kept.new numbers.new bytes.new out.new }
{
    if COORDINATORS <= c {
        return bench_rules::refuse_as(b, Refusal::BadNumber, 0, out);
    }
    let seat = c as usize;
    let s = b.settings;
    let all = s.n * s.size;
    let data = s.m * s.size;
    let mut content = [0u8; STRIPE_ROOM];
    let right = read_content(line, hex, &mut content[..data]);
    let mut blocks = [0u8; STRIPE_ROOM];
    let mut stripe = [0u8; STRIPE_ROOM];
    bench_state::fetch(seat, kept, &mut blocks[..all], &mut stripe[..data]);
    let old = bench_state::coordinator_at(b, seat);
    let a = coordinator::start_write(
        bench_state::geometry_of(s),
        old,
        BENCH_STRIPE,
        clock,
        &content[..data],
        &mut stripe[..data],
    );
    if is_short(a, right) {
        return bench_rules::refuse_as(b, Refusal::BadLine, 0, out);
    }
    let sources = Sources {
        blocks: &blocks[..all],
        stripe: &stripe[..data],
        coded: &blocks[..all],
    };
    commit(b, seat, a, sources, kept, numbers, bytes, 0, out)
}

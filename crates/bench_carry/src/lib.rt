// The numbers of a carry line, one after the other (document 01, "The bench").
// inner: call `bench_player::play_line`
#![tactic(auto)]

ghost use Rattle.std.specs.Prelude.{◌≡◌, ◌+◌, ◌≤◌, length};
ghost use Rattle.bench_parse.specs.Lines.{numbers_of};
ghost use Rattle.bench_parse.specs.Workers.{words_from, CarryFrom};
ghost use Rattle.bench_rules.specs.Play.{carried, carried_all};
ghost use Rattle.bench_rules.specs.Turning.{lent, world_in};
ghost use Rattle.bench_rules.specs.Workers.{BenchReady, Turned, Lined};
ghost use Rattle.bench_limits.specs.Limits.{line_room, text_length};

use bench_rules::After;
use bench_state::Bench;
use settings::Refusal;

// One carried number.
fn carry_one(
    b: Bench,
    number: u64,
    images: &mut [u8],
    kept: &mut [u8],
    numbers: &mut [u64],
    bytes: &mut [u8],
    at: usize,
    out: &mut [u8],
) -> After
    requires bench_ready { BenchReady b (lent images.old kept.old numbers.old bytes.old) }
    requires line_room_in_bounds { at + line_room ≤ length out.old }
    ensures { let l = lent images.old kept.old numbers.old bytes.old in
        let l' = lent images.new kept.new numbers.new bytes.new in
        Turned b l at out.old (carried b.settings (world_in b l) number) result l' out.new }
{
    if number == 0 {
        return bench_rules::refuse_as(b, Refusal::BadLine, at, out);
    }
    let last = number as usize;
    if b.sent < last {
        return bench_rules::refuse_as(b, Refusal::BadLine, at, out);
    }
    let k = last - 1;
    if bench_sent::is_reply(numbers, k) {
        return bench_carry_reply::carry_reply(b, k, kept, numbers, bytes, at, out);
    }
    bench_carry_message::carry_message(b, k, images, numbers, bytes, at, out)
}

// The numbers of a carry line, left to right.
// stays: the new form is no plainer (`while place <= line.len()`: `bench_parse::number_at` gives a number and the place behind it, which differ in length).
#[tactic(auto, using(crate::proofs::Laws::CarryLaws::carrying_first, crate::proofs::Laws::CarryLaws::carrying_next))]
pub fn carry_all(
    b: Bench,
    line: &[u8],
    first: usize,
    images: &mut [u8],
    kept: &mut [u8],
    numbers: &mut [u64],
    bytes: &mut [u8],
    out: &mut [u8],
) -> After
    requires bench_ready { BenchReady b (lent images.old kept.old numbers.old bytes.old) }
    requires carry_from { CarryFrom line.now first × (length out.old ≡ text_length) }
    ensures { let l = lent images.old kept.old numbers.old bytes.old in
        let l' = lent images.new kept.new numbers.new bytes.new in
        Lined b l out.old (carried_all b.settings (world_in b l) (numbers_of (words_from line.now first))) result l' out.new }
{
    let mut r = After { bench: b, used: 0 };
    let mut place = first;
    while place <= line.len() {
        let k = bench_parse::number_at(line, place);
        r = carry_one(r.bench, k.value, images, kept, numbers, bytes, r.used, out);
        place = k.end + 1;
    }
    r
}

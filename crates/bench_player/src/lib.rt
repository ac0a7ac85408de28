// The bench's lines, played one at a time over the proved routines (document 01, "The bench"): `play_line` is what a user calls.
#![tactic(auto)]

ghost use Rattle.std.specs.Prelude.{◌≡◌, ◌||◌, List, ◌≤◌, eqb, length};
ghost use Rattle.bench_player.specs.Lining.{stage_of, lent_lengths_right, bench_refused, Called};
ghost use Rattle.bench_player.specs.Workers.{First};
ghost use Rattle.bench_parse.specs.Lines.{reads};
ghost use Rattle.bench_parse.specs.Workers.{line_of, LineSound};
ghost use Rattle.bench_rules.specs.Play.{plays, waiting};
ghost use Rattle.bench_rules.specs.Turning.{Lent, lent, world_in};
ghost use Rattle.bench_rules.specs.Workers.{BenchReady, Lined};
ghost use Rattle.bench_state.specs.State.{bench_range};
ghost use Rattle.register.specs.Runs.{Event};
ghost use Rattle.settings.specs.Refusal.{refusal_in};
ghost use Rattle.bench_limits.specs.Limits.{last_message, kept_length, images_length, numbers_length, bytes_length, text_length};

use bench_carry::carry_all;
use bench_limits::{
    BENCH_STRIPES, BYTES_LENGTH, DOWN, IMAGES_LENGTH, KEPT_LENGTH, LAST_MESSAGE, NUMBERS_LENGTH,
    TEXT_LENGTH, UP,
};
use bench_parse::Line;
use bench_rules::After;
use bench_state::Bench;
use bench_switch::switch_at;
use settings::{PASSED, Refusal, Settings};

// A line while no set is accepted: what its bytes read as is given.
fn play_first(
    b: Bench,
    l: Line,
    line: &[u8],
    images: &mut [u8],
    kept: &mut [u8],
    out: &mut [u8],
) -> After
    requires line_value { (line_of l line.now ≡ reads line.now) × LineSound l line.now }
    requires n_value { (b.settings.n ≡ 0) × (b.sent ≤ last_message) }
    requires images_len { (length images.old ≡ images_length) × (length kept.old ≡ kept_length) × (length out.old ≡ text_length) }
    ensures { First b images.old kept.old (reads line.now) out.old result
        images.new kept.new out.new }
{
    match l {
        Line::Set(n, m, size, capacity) => {
            let s = Settings {
                n: n as usize,
                m: m as usize,
                size: size as usize,
                capacity: capacity as usize,
                stripes: BENCH_STRIPES,
            };
            match bench_state::check_bench(s) {
                Ok(()) => {
                    let bench = bench_state::set_up(s, images, kept);
                    After { bench, used: 0 }
                }
                Err(refusal) => bench_rules::refuse_as(b, refusal, 0, out),
            }
        }
        _ => bench_rules::refuse_as(b, Refusal::BadLine, 0, out),
    }
}

// A line after an accepted set.
fn play_next(
    b: Bench,
    l: Line,
    line: &[u8],
    images: &mut [u8],
    kept: &mut [u8],
    numbers: &mut [u64],
    bytes: &mut [u8],
    out: &mut [u8],
) -> After
    requires line_value { (line_of l line.now ≡ reads line.now) × LineSound l line.now }
    requires bench_ready { BenchReady b (lent images.old kept.old numbers.old bytes.old) }
    requires out_len { length out.old ≡ text_length }
    ensures { let l = lent images.old kept.old numbers.old bytes.old in
        let l' = lent images.new kept.new numbers.new bytes.new in
        Lined b l out.old (plays b.settings (world_in b l) (reads line.now)) result l' out.new }
{
    match l {
        Line::Set(_, _, _, _) => bench_rules::refuse_as(b, Refusal::BadLine, 0, out),
        Line::Write(c, clock, hex) => {
            bench_start::write_at(b, c, clock, line, hex, kept, numbers, bytes, out)
        }
        Line::Read(c, clock, brick) => {
            bench_start::read_at(b, c, clock, brick, kept, numbers, bytes, out)
        }
        Line::Carry(first) => carry_all(b, line, first, images, kept, numbers, bytes, out),
        Line::Crash(c) => bench_start::crash_at(b, c, kept, numbers, bytes, out),
        Line::Down(brick) => switch_at(b, brick, DOWN, out),
        Line::Up(brick) => switch_at(b, brick, UP, out),
        Line::Unread => bench_rules::refuse_as(b, Refusal::BadLine, 0, out),
    }
}

// The bench after a whole line: a refusal's number, 0 for none, the record, and how many bytes are printed.
// stays: the refusal's number and the record beside it are what `Lining.Called` says of a call, a refused one too, which the tests hand back in.
#[derive(Clone, Copy)]
pub struct LinePlayed {
    pub refusal: u32,
    pub bench: Bench,
    pub used: usize,
}

// Whether settings are those of no set, or within the bench's limits.
#[tactic(auto, using(crate::proofs::Laws::PlayerRefusalLaws::right_none, crate::proofs::Laws::PlayerRefusalLaws::right_some))]
fn settings_right(s: Settings) -> bool
    ensures { result ≡ (eqb s.n 0 || bench_range s) }
{
    if s.n == 0 {
        return true;
    }
    bench_state::check_bench(s).is_ok()
}

// Whether the lent buffers have their lengths.
#[tactic(auto, unfolding(crate::specs::Lining::lent_lengths_right))]
fn lengths_right(images: usize, kept: usize, numbers: usize, bytes: usize, out: usize) -> bool
    ensures { result ≡ lent_lengths_right images kept numbers bytes out }
{
    images == IMAGES_LENGTH
        && kept == KEPT_LENGTH
        && numbers == NUMBERS_LENGTH
        && bytes == BYTES_LENGTH
        && out == TEXT_LENGTH
}

// Why a record and buffers are no bench's.
#[tactic(auto, using(crate::proofs::Laws::PlayerRefusalLaws::refused_settings, crate::proofs::Laws::PlayerRefusalLaws::refused_lengths, crate::proofs::Laws::PlayerRefusalLaws::refused_many, crate::proofs::Laws::PlayerRefusalLaws::refused_not))]
fn check_call(
    b: Bench,
    images: usize,
    kept: usize,
    numbers: usize,
    bytes: usize,
    out: usize,
) -> Result<(), Refusal>
    ensures { refusal_in result ≡ bench_refused b images kept numbers bytes out }
{
    if !settings_right(b.settings) {
        return Err(Refusal::BadSetting);
    }
    if !lengths_right(images, kept, numbers, bytes, out) {
        return Err(Refusal::BadLength);
    }
    if LAST_MESSAGE < b.sent {
        return Err(Refusal::BadRecord);
    }
    Ok(())
}

// The bench before its first line: no set.
pub fn no_set() -> Bench
    ensures events_value { (l : Lent) (events : List Event) → stage_of result l events ≡ waiting }
    ensures text_length_value { bench_refused result images_length kept_length numbers_length bytes_length text_length ≡ 0 }
{
    let none = Settings {
        n: 0,
        m: 0,
        size: 0,
        capacity: 0,
        stripes: 0,
    };
    bench_state::new_bench(none)
}

// One line, without its newline, as document 01 has it: what is printed stands at the beginning of out. Refused before the line is looked
// at, with nothing changed: 1 settings past the limits, 2 a length, 6 more messages than 127.
pub fn play_line(
    b: Bench,
    line: &[u8],
    images: &mut [u8],
    kept: &mut [u8],
    numbers: &mut [u64],
    bytes: &mut [u8],
    out: &mut [u8],
) -> LinePlayed
    ensures { let l = lent images.old kept.old numbers.old bytes.old in
        let l' = lent images.new kept.new numbers.new bytes.new in
        Called b l line.now out.old result l' out.new }
{
    if let Err(refusal) = check_call(
        b,
        images.len(),
        kept.len(),
        numbers.len(),
        bytes.len(),
        out.len(),
    ) {
        return LinePlayed {
            refusal: refusal.number(),
            bench: b,
            used: 0,
        };
    }
    let l = bench_parse::read_line(line);
    if b.settings.n == 0 {
        let first = play_first(b, l, line, images, kept, out);
        return LinePlayed {
            refusal: PASSED,
            bench: first.bench,
            used: first.used,
        };
    }
    let r = play_next(b, l, line, images, kept, numbers, bytes, out);
    LinePlayed {
        refusal: PASSED,
        bench: r.bench,
        used: r.used,
    }
}

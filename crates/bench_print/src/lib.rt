// What the bench prints (document 01, "The bench"): a line per ended operation and per refusal, written into a lent buffer from a place on.
// inner: call `bench_player::play_line`
#![tactic(auto)]

ghost use Rattle.std.specs.Prelude.{◌≡◌, [], ◌∷◌, ◌++◌, ◌+◌, ◌≤◌, ◌<◌, length};
ghost use Rattle.bench_print.specs.Printing.{space, newline, digit, decimal, hex_digit, hex_text, refused_text, kind_word, end_word, line_text, ended_text};
ghost use Rattle.bench_print.specs.Printing.{printed_into};
ghost use Rattle.bench_print.specs.Workers.{number_room, kind_room, letter_room, end_room, ended_room, PrintedAt};
ghost use Rattle.bench_limits.specs.Limits.{stripe_room, line_room};

use coord_apply::{ABORTED, CUT, Notice, OK, STRIPE};
use coord_record::READING;

// One byte.
#[tactic(auto, using(crate::proofs::Laws::WrittenLaws::placed_byte))]
fn put_byte(b: u8, at: usize, out: &mut [u8]) -> usize
    requires { at < length out.old }
    ensures { PrintedAt at (b ∷ []) out.old out.new result }
{
    out[at] = b;
    at + 1
}

// A word.
fn put_word(word: &[u8], at: usize, out: &mut [u8]) -> usize
    requires { at + length word.now ≤ length out.old }
    ensures { PrintedAt at word.now out.old out.new result }
{
    let end = at + word.len();
    out[at..end].copy_from_slice(word);
    end
}

// A digit of a number.
fn digit_of(k: u64) -> u8
    requires { k < 10 }
    ensures { result ≡ digit k }
{
    b'0' + k as u8
}

// A number in decimal.
fn put_number(k: u64, at: usize, out: &mut [u8]) -> usize
    requires { at + length (decimal k) ≤ length out.old }
    ensures { PrintedAt at (decimal k) out.old out.new result }
{
    if k < 10 {
        return put_byte(digit_of(k), at, out);
    }
    let to = put_number(k / 10, at, out);
    put_byte(digit_of(k % 10), to, out)
}

// A digit of a byte.
#[tactic(auto, unfolding(crate::specs::Printing::hex_digit))]
fn hex_digit(k: u8) -> u8
    requires { k < 16 }
    ensures { result ≡ hex_digit k }
{
    match k {
        0..=9 => b'0' + k,
        _ => b'a' + (k - 10),
    }
}

// Bytes in hexadecimal.
#[tactic(auto, using(crate::proofs::Laws::TextLaws::hexing_all))]
fn put_hex(bytes: &[u8], at: usize, out: &mut [u8]) -> usize
    requires { at + length (hex_text bytes.now) ≤ length out.old }
    ensures { PrintedAt at (hex_text bytes.now) out.old out.new result }
{
    let mut to = at;
    for &b in bytes {
        to = put_byte(hex_digit(b / 16), to, out);
        to = put_byte(hex_digit(b % 16), to, out);
    }
    to
}

// The line of a refusal.
pub fn put_refused(number: u32, at: usize, out: &mut [u8]) -> usize
    requires { at + line_room ≤ length out.old }
    ensures value { result ≡ at + length (refused_text number) }
    ensures out_after { out.new ≡ printed_into at (refused_text number) out.old }
    ensures upper_bound { result ≤ at + line_room }
{
    let word = put_word(b"refused ", at, out);
    let to = put_number(number as u64, word, out);
    put_byte(b'\n', to, out)
}

// A number and a space.
fn put_spaced(k: u64, at: usize, out: &mut [u8]) -> usize
    requires { at + number_room ≤ length out.old }
    ensures printed_at { PrintedAt at (decimal k ++ space ∷ []) out.old out.new result }
    ensures upper_bound { result ≤ at + number_room }
{
    let to = put_number(k, at, out);
    put_byte(b' ', to, out)
}

// The kind of an operation and a space.
fn put_kind(kind: u8, at: usize, out: &mut [u8]) -> usize
    requires { at + kind_room ≤ length out.old }
    ensures printed_at { PrintedAt at (kind_word kind ++ space ∷ []) out.old out.new result }
    ensures upper_bound { result ≤ at + kind_room }
{
    match kind {
        READING => put_word(b"read ", at, out),
        _ => put_word(b"write ", at, out),
    }
}

// A letter and a space.
// stays: no twin of `put_spaced`: a byte as it is, where that has the digits of a number.
fn put_letter(letter: u8, at: usize, out: &mut [u8]) -> usize
    requires { at + letter_room ≤ length out.old }
    ensures printed_at { PrintedAt at (letter ∷ space ∷ []) out.old out.new result }
    ensures upper_bound { result ≤ at + letter_room }
{
    let to = put_byte(letter, at, out);
    put_byte(b' ', to, out)
}

// How an operation ended, and the end of the line.
fn put_end(what: u8, stripe: &[u8], at: usize, out: &mut [u8]) -> usize
    requires { (at + end_room ≤ length out.old) × (length stripe.now ≤ stripe_room) }
    ensures printed_at { PrintedAt at (end_word what stripe.now ++ newline ∷ []) out.old out.new result }
    ensures upper_bound { result ≤ at + end_room }
{
    match what {
        OK => put_word(b"ok\n", at, out),
        STRIPE => {
            let to = put_hex(stripe, at, out);
            put_byte(b'\n', to, out)
        }
        ABORTED => put_word(b"abort\n", at, out),
        _ => put_word(b"cut\n", at, out),
    }
}

// The line of an operation that ended.
fn put_line(
    c: usize,
    kind: u8,
    time: u64,
    letter: u8,
    what: u8,
    stripe: &[u8],
    at: usize,
    out: &mut [u8],
) -> usize
    requires { (at + line_room ≤ length out.old) × (length stripe.now ≤ stripe_room) }
    ensures printed_at { PrintedAt at (line_text c kind time letter what stripe.now) out.old out.new result }
    ensures upper_bound { result ≤ at + ended_room }
{
    let first = put_spaced(c as u64, at, out);
    let second = put_kind(kind, first, out);
    let third = put_spaced(time, second, out);
    let fourth = put_letter(letter, third, out);
    put_end(what, stripe, fourth, out)
}

// What is printed of what is seen at the coordinator c: nothing, or the line of the operation that ended.
pub fn put_ended(c: usize, seen: Notice, stripe: &[u8], at: usize, out: &mut [u8]) -> usize
    requires { (at + line_room ≤ length out.old) × (length stripe.now ≤ stripe_room) }
    ensures value { result ≡ at + length (ended_text c seen stripe.now) }
    ensures out_after { out.new ≡ printed_into at (ended_text c seen stripe.now) out.old }
    ensures upper_bound { result ≤ at + line_room }
{
    match seen.what {
        OK..=CUT => put_line(
            c,
            seen.kind,
            seen.time,
            seen.letter,
            seen.what,
            stripe,
            at,
            out,
        ),
        _ => at,
    }
}

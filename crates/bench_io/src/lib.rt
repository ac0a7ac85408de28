// The program `bench` (document 01): reads standard input to its end, whatever it holds, cuts it into lines, plays each as it comes, and
// writes out what the line prints. All that it does with a line is `bench_player`'s, and with a chunk `bench_lines`'s.
#![tactic(auto)]

ghost use Rattle.std.specs.Prelude.{◌≡◌, ◌<◌, ◌≤◌, length, take, pos};
ghost use Rattle.std.specs.Io.KnownBytes.{Consumes, IsAtEnd};
ghost use Rattle.bench_io.specs.Counts.{Moved};
ghost use Rattle.bench_io.specs.Workers.{after_last, write_status, got_of, tells_again, arrived, left_with};
ghost use Rattle.bench_io.specs.Workers.{Interrupts, TellsInterrupt, HeldPlayed, ChunkPlayed, PlayedLast, TurnMade, Ran, RunLeft};
ghost use Rattle.bench_limits.specs.Limits.{kept_length, images_length, numbers_length, bytes_length, text_length};
ghost use Rattle.bench_rules.specs.Turning.{lent};

use bench_limits::{BYTES_LENGTH, IMAGES_LENGTH, KEPT_LENGTH, NUMBERS_LENGTH, TEXT_LENGTH};
use bench_state::Bench;
use std::io::{Error, ErrorKind, Read, Write};

// How the program stands: it goes on; it is at the end of the input; reading failed, or writing did.
#[derive(Clone, Copy, PartialEq, Eq)]
enum Standing {
    GoesOn,
    Ended,
    CannotRead,
    CannotWrite,
}

// What `read` answers at the end of the input.
const END_OF_INPUT: usize = 0;

// The number that the system gives an error where a signal interrupted the call.
const EINTR: i32 = 4;

// What the program leaves with.
const DONE: u32 = 0;

const FAILED: u32 = 1;

// The bench after some lines, how many bytes of a further line are held, and how the program stands.
#[derive(Clone, Copy)]
struct Pass {
    bench: Bench,
    held: usize,
    status: Standing,
}

// What a call of `read` answered: how many bytes it put at the chunk's start; or it failed, where a signal interrupted it or otherwise.
#[derive(Clone, Copy)]
enum Answer {
    Came(usize),
    Interrupted,
    Failed,
}

// Buffers of zeros; only their lengths are told, which lending them needs.
fn new_images() -> [u8; IMAGES_LENGTH]
    ensures { images_length ≡ length result }
{
    [0; IMAGES_LENGTH]
}

fn new_kept() -> [u8; KEPT_LENGTH]
    ensures { kept_length ≡ length result }
{
    [0; KEPT_LENGTH]
}

fn new_numbers() -> [u64; NUMBERS_LENGTH]
    ensures { numbers_length ≡ length result }
{
    [0; NUMBERS_LENGTH]
}

fn new_bytes() -> [u8; BYTES_LENGTH]
    ensures { bytes_length ≡ length result }
{
    [0; BYTES_LENGTH]
}

// Room for all that a line prints; a chunk of the input is as long.
fn large_buffer() -> [u8; TEXT_LENGTH]
    ensures { text_length ≡ length result }
{
    [0; TEXT_LENGTH]
}

// How the program stands after a text was written, or was not.
#[tactic(auto, unfolding(crate::specs::Workers::write_status))]
fn after_writing(written: bool) -> Standing
    ensures { result ≡ write_status written }
{
    if written {
        Standing::GoesOn
    } else {
        Standing::CannotWrite
    }
}

// The first bytes of the line's buffer played, if they are a line, and what the line prints written out.
fn play<W: Write>(
    b: Bench,
    ended: bool,
    held: usize,
    line: &[u8],
    images: &mut [u8],
    kept: &mut [u8],
    numbers: &mut [u64],
    bytes: &mut [u8],
    out: &mut [u8],
    output: &mut W,
) -> Pass
    requires { held ≤ length line.now }
    ensures { let l = lent images.old kept.old numbers.old bytes.old in
        let l' = lent images.new kept.new numbers.new bytes.new in
        HeldPlayed ended held line.now b l out.old result l' out.new }
{
    if !ended {
        return Pass {
            bench: b,
            held,
            status: Standing::GoesOn,
        };
    }
    let o = bench_player::play_line(b, &line[..held], images, kept, numbers, bytes, out);
    let written = output.write_all(&out[..o.used]).is_ok();
    Pass {
        bench: o.bench,
        held: 0,
        status: after_writing(written),
    }
}

// The lines that end in a chunk, one after the other.
// stays: the new form is no plainer (`at = c.next`: each line is cut where the one before ended, and the bench goes through all of them).
fn play_chunk<W: Write>(
    b: Bench,
    held: usize,
    chunk: &[u8],
    line: &mut [u8],
    images: &mut [u8],
    kept: &mut [u8],
    numbers: &mut [u64],
    bytes: &mut [u8],
    out: &mut [u8],
    output: &mut W,
) -> Pass
    requires { held ≤ length line.old }
    ensures { let l = lent images.old kept.old numbers.old bytes.old in
        let l' = lent images.new kept.new numbers.new bytes.new in
        ChunkPlayed chunk.now line.old held b l out.old result line.new l' out.new }
{
    let mut p = Pass {
        bench: b,
        held,
        status: Standing::GoesOn,
    };
    let mut at: usize = 0;
    while at < chunk.len() {
        let c = bench_lines::cut_line(chunk, at, line, p.held);
        p = play(
            p.bench, c.whole, c.held, line, images, kept, numbers, bytes, out, output,
        );
        if p.status != Standing::GoesOn {
            return p;
        }
        at = c.next;
    }
    p
}

// The end of the input: a last line may have no newline.
fn play_last<W: Write>(
    b: Bench,
    held: usize,
    line: &[u8],
    images: &mut [u8],
    kept: &mut [u8],
    numbers: &mut [u64],
    bytes: &mut [u8],
    out: &mut [u8],
    output: &mut W,
) -> Pass
    requires { held ≤ length line.now }
    ensures { let l = lent images.old kept.old numbers.old bytes.old in
        let l' = lent images.new kept.new numbers.new bytes.new in
        PlayedLast line.now held b l out.old result l' out.new }
{
    let p = play(
        b,
        0 < held,
        held,
        line,
        images,
        kept,
        numbers,
        bytes,
        out,
        output,
    );
    Pass {
        bench: p.bench,
        held: 0,
        status: at_the_end(p.status),
    }
}

// How the program stands after the last line.
fn at_the_end(status: Standing) -> Standing
    ensures { result ≡ after_last status }
{
    match status {
        Standing::GoesOn => Standing::Ended,
        _ => status,
    }
}

// Whether the error's number says that a signal interrupted the call.
#[tactic(auto, using(crate::proofs::Laws::ReadLaws::interrupts, crate::proofs::Laws::ReadLaws::interrupts_not))]
fn is_interrupt(error: i32) -> bool
    ensures { Interrupts error result }
{
    error == EINTR
}

// Whether a signal interrupted the call that failed so. An error that is not the system's has no number, but a kind.
fn was_interrupted(error: &Error) -> bool
    ensures { TellsInterrupt error.now result }
{
    match error.raw_os_error() {
        Some(number) => is_interrupt(number),
        None => error.kind() == ErrorKind::Interrupted,
    }
}

// One call of `read`. Where it is known which bytes the reader has left, those that came are the next of them, and it answers 0 at their end.
fn read_once<R: Read>(input: &mut R, chunk: &mut [u8]) -> Answer
    ensures moved { Moved (length chunk.new) (got_of result) }
    ensures bytes { Consumes (R.remaining input.old) (R.remaining input.new) (take (arrived (got_of result)) chunk.new) }
    ensures end { got_of result ≡ pos 0 → 0 < length chunk.new → IsAtEnd (R.remaining input.new) }
{
    match input.read(chunk) {
        Ok(n) => Answer::Came(n),
        Err(error) => {
            if was_interrupted(&error) {
                Answer::Interrupted
            } else {
                Answer::Failed
            }
        }
    }
}

// What a call of `read` answered and left in the chunk, played: the lines that end in it, or at the end of the input the last one. A call that a
// signal interrupts before it moves a byte is made again.
fn turn<W: Write>(
    p: Pass,
    answer: Answer,
    chunk: &[u8],
    line: &mut [u8],
    images: &mut [u8],
    kept: &mut [u8],
    numbers: &mut [u64],
    bytes: &mut [u8],
    out: &mut [u8],
    output: &mut W,
) -> Pass
    requires { p.held ≤ length line.old }
    ensures { let l = lent images.old kept.old numbers.old bytes.old in
        let l' = lent images.new kept.new numbers.new bytes.new in
        TurnMade (got_of answer) (tells_again answer) chunk.now line.old p l out.old result line.new l' out.new }
{
    match answer {
        Answer::Came(END_OF_INPUT) => play_last(
            p.bench, p.held, line, images, kept, numbers, bytes, out, output,
        ),
        Answer::Came(n) => play_chunk(
            p.bench,
            p.held,
            &chunk[..n.min(chunk.len())],
            line,
            images,
            kept,
            numbers,
            bytes,
            out,
            output,
        ),
        Answer::Interrupted => Pass {
            status: Standing::GoesOn,
            ..p
        },
        Answer::Failed => Pass {
            status: Standing::CannotRead,
            ..p
        },
    }
}

// All of the input. A proved loop has to end, so it has a number of turns that no run uses up.
fn play_all<R: Read, W: Write>(
    chunk: &mut [u8],
    line: &mut [u8],
    images: &mut [u8],
    kept: &mut [u8],
    numbers: &mut [u64],
    bytes: &mut [u8],
    out: &mut [u8],
    input: &mut R,
    output: &mut W,
) -> Standing
    ensures { let l = lent images.old kept.old numbers.old bytes.old in
        let l' = lent images.new kept.new numbers.new bytes.new in
        Ran line.old l out.old result l' out.new }
{
    let mut p = Pass {
        bench: bench_player::no_set(),
        held: 0,
        status: Standing::GoesOn,
    };
    for _turn in 0..u64::MAX {
        let answer = read_once(input, chunk);
        p = turn(
            p, answer, chunk, line, images, kept, numbers, bytes, out, output,
        );
        if p.status != Standing::GoesOn {
            return p.status;
        }
    }
    p.status
}

// What the program leaves with; of what failed it says one line.
#[tactic(auto, unfolding(crate::specs::Workers::left_with))]
fn leave<E: Write>(status: Standing, errors: &mut E) -> u32
    ensures { result ≡ left_with status }
{
    let text: &[u8] = match status {
        Standing::Ended => return DONE,
        Standing::CannotWrite => b"bench: cannot write standard output\n",
        _ => b"bench: cannot read standard input\n",
    };
    let _ = errors.write_all(text);
    FAILED
}

// The whole program on its three streams: 0, or 1 where reading or writing failed.
pub fn bench_run<R: Read, W: Write, E: Write>(input: &mut R, output: &mut W, errors: &mut E) -> u32
    ensures { RunLeft result }
{
    let mut images = new_images();
    let mut kept = new_kept();
    let mut numbers = new_numbers();
    let mut bytes = new_bytes();
    let mut line = bench_lines::new_line();
    let mut out = large_buffer();
    let mut chunk = large_buffer();
    let status = play_all(
        &mut chunk,
        &mut line,
        &mut images,
        &mut kept,
        &mut numbers,
        &mut bytes,
        &mut out,
        input,
        output,
    );
    leave(status, errors)
}

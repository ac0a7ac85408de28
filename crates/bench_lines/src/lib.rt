// Cutting the input into lines, chunk by chunk (document 01, "The bench").
// inner: call `bench_player::play_line`
#![tactic(auto)]

ghost use Rattle.std.specs.Prelude.{◌≡◌, length, drop};
ghost use Rattle.bench_lines.specs.Cutting.{CutOff};
ghost use Rattle.bench_lines.specs.Workers.{Kept, NewlineIn};
ghost use Rattle.bench_parse.specs.Lines.{held_length};

// Room for as many bytes of a line as are enough to tell that it is too long.
const LINE_LENGTH: usize = bench_parse::HELD_LENGTH;

const NEWLINE: u8 = b'\n';

// Where the cutting stands: the next place in the chunk, how many bytes of the line are held, and whether a newline ended it.
// stays: no flag with a value: the place and the held bytes are told on both ways, and `bench_io::play` takes all three.
#[derive(Clone, Copy)]
pub struct Cut {
    pub next: usize,
    pub held: usize,
    pub whole: bool,
}

// A line's buffer, of zeros; only its length is told.
pub fn new_line() -> [u8; LINE_LENGTH]
    ensures { held_length ≡ length result }
{
    [0; LINE_LENGTH]
}

// Bytes moved into a line behind those that it holds, as many as it has room for: how many it holds then.
fn keep_bytes(line: &mut [u8], held: usize, bytes: &[u8]) -> usize
    ensures { Kept line.old held bytes.now result line.new }
{
    let count = line.len().saturating_sub(held).min(bytes.len());
    if count == 0 {
        return held;
    }
    line[held..held + count].copy_from_slice(&bytes[..count]);
    held + count
}

// The place of the first newline.
fn newline_in(bytes: &[u8]) -> Option<usize>
    ensures { NewlineIn bytes.now result }
{
    bytes.iter().position(|&x| x == NEWLINE)
}

// The bytes of a chunk from a place on, up to the next newline or the chunk's end, moved into the line behind those that it holds, as many as
// it has room for.
pub fn cut_line(chunk: &[u8], from: usize, line: &mut [u8], held: usize) -> Cut
    ensures { CutOff (drop from chunk.now) from line.old held result line.new }
{
    if chunk.len() < from {
        return Cut {
            next: from,
            held,
            whole: false,
        };
    }
    let rest = &chunk[from..];
    match newline_in(rest) {
        Some(end) => Cut {
            next: from + end + 1,
            held: keep_bytes(line, held, &rest[..end]),
            whole: true,
        },
        None => Cut {
            next: chunk.len(),
            held: keep_bytes(line, held, rest),
            whole: false,
        },
    }
}

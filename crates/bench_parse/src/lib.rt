// How a line of the bench reads (document 01, "The bench"): from the bytes of a line to what it says.
// inner: call `bench_player::play_line`
#![tactic(auto)]

ghost use Rattle.std.specs.Prelude.{◌≡◌, ◌+◌, ◌*◌, ◌≤◌, ◌<◌, length, drop};
ghost use Rattle.bench_parse.specs.Commands.{by_command, command_in, Follows};
ghost use Rattle.bench_parse.specs.Lines.{every, number_word, is_hex, hex_value, bytes_of, set_of, write_of, read_of, carry_of, reads};
ghost use Rattle.byte_lists.specs.Lists.{same};
ghost use Rattle.bench_parse.specs.Workers.{words_from, line_of, CarryFrom, LineSound, NumberAt};
ghost use Rattle.bench_parse.specs.Workers.{after_carry, ReadAs, word_length, number_read, NumberFrom, lone_number, HexesFrom, Place};

// "a line has up to 1,000 bytes"
pub const LONGEST: usize = 1000;

// So many bytes of a line are enough to tell that it is too long.
pub const HELD_LENGTH: usize = LONGEST + 1;

// "a number has 1 to 19 digits"
pub const MOST_DIGITS: usize = 19;

const SPACE: u8 = b' ';

// The first word of a line that reads.
#[derive(Clone, Copy, PartialEq, Eq)]
enum Command {
    Set,
    Write,
    Read,
    Carry,
    Crash,
    Down,
    Up,
}

// What a line says. The last number of Write and of Carry is the place in the line where the hex word, or the first number, begins.
#[derive(Clone, Copy)]
pub enum Line {
    Set(u64, u64, u64, u64),
    Write(u64, u64, usize),
    Read(u64, u64, u64),
    Carry(usize),
    Crash(u64),
    Down(u64),
    Up(u64),
    // stays: "any other line, a blank one too, doesn't read" is one of the cases of document 01's lines
    Unread,
}

// A number of a line, and the place behind it.
#[derive(Clone, Copy)]
pub struct Number {
    pub value: u64,
    pub end: usize,
}

// The place of the next space, or the line's end.
fn word_end(line: &[u8], at: usize) -> usize
    requires { at ≤ length line.now }
    ensures place { result ≡ at + word_length (drop at line.now) }
    ensures within { result ≤ length line.now }
{
    match line[at..].iter().position(|&x| x == SPACE) {
        Some(k) => at + k,
        None => line.len(),
    }
}

// The number that a word stands for.
#[tactic(auto, unfolding(crate::specs::Lines::is_digit), using(crate::proofs::Laws::NumeralLaws::word_steps))]
fn word_number(word: &[u8]) -> Option<u64>
    ensures { result ≡ number_read word.now }
{
    if word.is_empty() {
        return None;
    }
    if MOST_DIGITS < word.len() {
        return None;
    }
    let mut value: u64 = 0;
    for &x in word {
        if !x.is_ascii_digit() {
            return None;
        }
        value = value * 10 + (x - b'0') as u64;
    }
    Some(value)
}

// The number at a place of a line, and where it ends.
#[tactic(auto, using(crate::proofs::Laws::NumeralLaws::number_steps))]
fn number_from(line: &[u8], at: usize) -> Option<Number>
    requires { Place line.now at }
    ensures { NumberFrom line.now at result }
{
    if line.len() < at {
        return None;
    }
    let end = word_end(line, at);
    let value = word_number(&line[at..end])?;
    Some(Number { value, end })
}

// The number at a place of a line where no other word follows.
#[tactic(auto, using(crate::proofs::Laws::NumeralLaws::alone_steps))]
fn alone(line: &[u8], at: usize) -> Option<u64>
    requires { Place line.now at }
    ensures { result ≡ lone_number (words_from line.now at) }
{
    let number = number_from(line, at)?;
    if number.end < line.len() {
        return None;
    }
    Some(number.value)
}

// Whether all words from a place on are numbers.
// stays: the new form is no plainer (`while k <= line.len()`: it goes on behind the word read, and words differ in length).
#[tactic(auto, using(crate::proofs::Laws::NumeralLaws::numbers_steps))]
fn all_numbers(line: &[u8], at: usize) -> bool
    requires { Place line.now at }
    ensures { result ≡ every number_word (words_from line.now at) }
{
    let mut k = at;
    while k <= line.len() {
        let Some(number) = number_from(line, k) else {
            return false;
        };
        k = number.end + 1;
    }
    true
}

// The number of a carry line that begins at a place: the first, or behind the last one's end.
#[tactic(auto, using(crate::proofs::Laws::NumeralLaws::carry_some))]
pub fn number_at(line: &[u8], at: usize) -> Number
    requires { CarryFrom line.now at }
    ensures { NumberAt line.now at result }
{
    number_from(line, at).unwrap()
}

// Whether a byte is a hex digit.
#[tactic(auto, unfolding(crate::specs::Lines::is_hex, crate::specs::Workers::digits))]
fn is_hex(x: u8) -> bool
    ensures { result ≡ is_hex x }
{
    x.is_ascii_hexdigit()
}

// Whether the rest of a line from a place on is one hex word.
fn hex_from(line: &[u8], at: usize) -> bool
    ensures { HexesFrom line.now at result }
{
    at < line.len() && line[at..].iter().all(|&x| is_hex(x))
}

// `set n m size capacity`, from the first number on.
fn set_from(line: &[u8], at: usize) -> Option<Line>
    requires { Place line.now at }
    ensures { ReadAs result line.now (set_of (words_from line.now at)) }
{
    let n = number_from(line, at)?;
    let m = number_from(line, n.end + 1)?;
    let size = number_from(line, m.end + 1)?;
    let capacity = alone(line, size.end + 1)?;
    Some(Line::Set(n.value, m.value, size.value, capacity))
}

// `write c clock hex`, from the first number on.
fn write_from(line: &[u8], at: usize) -> Option<Line>
    requires { Place line.now at }
    ensures { ReadAs result line.now (write_of (words_from line.now at)) }
{
    let c = number_from(line, at)?;
    let clock = number_from(line, c.end + 1)?;
    let hex = clock.end + 1;
    if !hex_from(line, hex) {
        return None;
    }
    Some(Line::Write(c.value, clock.value, hex))
}

// `read c clock brick`, from the first number on.
fn read_from(line: &[u8], at: usize) -> Option<Line>
    requires { Place line.now at }
    ensures { ReadAs result line.now (read_of (words_from line.now at)) }
{
    let c = number_from(line, at)?;
    let clock = number_from(line, c.end + 1)?;
    let brick = alone(line, clock.end + 1)?;
    Some(Line::Read(c.value, clock.value, brick))
}

// `carry` and its numbers, from the first on.
fn carry_from(line: &[u8], at: usize) -> Option<Line>
    requires place { Place line.now at }
    requires after_carry_le_at { after_carry ≤ at }
    ensures { ReadAs result line.now (carry_of (words_from line.now at)) }
{
    if line.len() < at {
        return None;
    }
    if !all_numbers(line, at) {
        return None;
    }
    Some(Line::Carry(at))
}

// Whether two words are the same.
#[tactic(auto, using(crate::proofs::Laws::WordLaws::same_lem))]
fn same_word(a: &[u8], b: &[u8]) -> bool
    ensures { result ≡ same a.now b.now }
{
    a == b
}

// The first word as a command.
// stays: tried, the proof did not close: a `match` on byte strings leaves a goal for each byte that differs, 26 of them.
#[tactic(auto, unfolding(crate::specs::Commands::command_texts))]
fn command_of(word: &[u8]) -> Option<Command>
    ensures { result ≡ command_in word.now }
{
    if same_word(word, b"set") {
        return Some(Command::Set);
    }
    if same_word(word, b"write") {
        return Some(Command::Write);
    }
    if same_word(word, b"read") {
        return Some(Command::Read);
    }
    if same_word(word, b"carry") {
        return Some(Command::Carry);
    }
    if same_word(word, b"crash") {
        return Some(Command::Crash);
    }
    if same_word(word, b"down") {
        return Some(Command::Down);
    }
    if same_word(word, b"up") {
        return Some(Command::Up);
    }
    None
}

// A line from its second word on.
fn read_rest(line: &[u8], at: usize, command: Command) -> Option<Line>
    requires place { Place line.now at }
    requires follows { Follows command at }
    ensures { ReadAs result line.now (by_command command (words_from line.now at)) }
{
    match command {
        Command::Set => set_from(line, at),
        Command::Write => write_from(line, at),
        Command::Read => read_from(line, at),
        Command::Carry => carry_from(line, at),
        Command::Crash => Some(Line::Crash(alone(line, at)?)),
        Command::Down => Some(Line::Down(alone(line, at)?)),
        Command::Up => Some(Line::Up(alone(line, at)?)),
    }
}

// What a line says; None where it does not read.
fn read_words(line: &[u8]) -> Option<Line>
    ensures { ReadAs result line.now (reads line.now) }
{
    if LONGEST < line.len() {
        return None;
    }
    let end = word_end(line, 0);
    let command = command_of(&line[..end])?;
    read_rest(line, end + 1, command)
}

// What a line says.
pub fn read_line(line: &[u8]) -> Line
    ensures line_value { line_of result line.now ≡ reads line.now }
    ensures line_sound { LineSound result line.now }
{
    read_words(line).unwrap_or(Line::Unread)
}

// A hex digit's value; 0 for a byte that is none.
#[tactic(auto, unfolding(crate::specs::Lines::hex_value, crate::specs::Workers::digits))]
fn hex_value(x: u8) -> u8
    ensures { (result ≡ hex_value x) × (result < 16) }
{
    match x {
        b'0'..=b'9' => x - b'0',
        b'a'..=b'f' => x - b'a' + 10,
        b'A'..=b'F' => x - b'A' + 10,
        _ => 0,
    }
}

// The bytes of a line's hex digits from a place on, two digits a byte.
#[tactic(auto, using(crate::proofs::Laws::HexLaws::hex_steps))]
pub fn hex_bytes(line: &[u8], at: usize, out: &mut [u8])
    requires { at + 2 * length out.old ≡ length line.now }
    ensures { out.new ≡ bytes_of (drop at line.now) }
{
    for i in 0..out.len() {
        let high = hex_value(line[at + 2 * i]);
        let low = hex_value(line[at + 2 * i + 1]);
        out[i] = high * 16 + low;
    }
}

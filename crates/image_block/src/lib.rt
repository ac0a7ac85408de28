// The 512-byte block of a saved brick (document 01, "The saved brick").
// inner: call `image::open`
#![tactic(auto)]

ghost use Rattle.std.specs.Prelude.{◌≡◌, ◌+◌, ◌≤◌, ◌<◌, length, drop};
ghost use Rattle.settings.specs.Ranges.{max_size};
ghost use Rattle.image_block.specs.Block.{block_bytes, check_bytes};
ghost use Rattle.image_block.specs.Block.{weighted, check_of, checked, sealed, head_body, head_block, slot_body, entry_body, entry_block};
ghost use Rattle.image_block.specs.Block.{mark_body, mark_block, unused_block};
ghost use Rattle.image_block.specs.Workers.{unchecked, total, sum_row_bytes, plain_most, rising_most, row_most, past_most};
ghost use Rattle.byte_lists.specs.Lists.{same};

use byte_lists::{read2, store};
use settings::Checked;

// "Blocks of 512 bytes".
pub const BLOCK_BYTES: usize = 512;

// "Bytes 0–1 hold the check": mod 65521.
const CHECK_BYTES: usize = 2;

const CHECK_MODULUS: u32 = 65521;

// "Byte 2 is the kind: 0 unused, 1 head, 2 entry", and 3 a mark.
// stays: bytes of the saved format, which a block is compared with whole; an enum would be turned back into them at each place.
pub const KIND: usize = 2;

const HEAD_KIND: u8 = 1;

const ENTRY_KIND: u8 = 2;

pub const MARK_KIND: u8 = 3;

// "The head: 4 n, 5 m, 6 brick, 7 capacity, 8–9 block size, 10–11 entry count, 12–19 promise."
const HEAD_N: usize = 4;

const HEAD_M: usize = 5;

const HEAD_BRICK: usize = 6;

const HEAD_CAPACITY: usize = 7;

const HEAD_SIZE: usize = 8;

pub const HEAD_COUNT: usize = 10;

pub const HEAD_PROMISE: usize = 12;

// "Entries: 4–11 time, 12–13 block size, block from 16."
pub const ENTRY_TIME: usize = 4;

const ENTRY_SIZE: usize = 12;

pub const ENTRY_HELD: usize = 16;

// The check is summed in rows; the first begins with the check itself, so fewer of its bytes count.
const ROW_BYTES: usize = 64;

// A brick of a set, by its number: the settings are in range, and the number is below n.
#[derive(Clone, Copy)]
pub struct Member {
    pub set: Checked,
    pub brick: usize,
    ghost brick_low: { brick < set.settings.n },
}

// The sum of the bytes of a row.
fn plain_sum(t: &[u8]) -> u32
    requires { length t.now ≡ sum_row_bytes }
    ensures { (result ≡ total t.now) × (result ≤ plain_most) }
{
    let mut part: u32 = 0;
    for i in 0..ROW_BYTES {
        part += t[i] as u32;
    }
    part
}

// The sum of the bytes of a row, the first one once, the next one twice, and so on.
fn rising_sum(b: &[u8]) -> u32
    requires { length b.now ≤ sum_row_bytes }
    ensures { (result ≡ weighted 1 b.now) × (result ≤ rising_most) }
{
    let mut rise: u32 = 0;
    for p in 0..b.len() {
        rise += (p as u32 + 1) * b[p] as u32;
    }
    rise
}

// The part of a row in the check, where its first byte counts once more than `past` times.
#[tactic(auto, using(crate::proofs::Laws::CheckRowLaws::past_high))]
fn row_sum(t: &[u8], past: u32) -> u32
    requires t_len { length t.now ≡ sum_row_bytes }
    requires past_le_past_most { past ≤ past_most }
    ensures { (result ≡ weighted (past + 1) t.now) × (result ≤ row_most) }
{
    rising_sum(t) + past * plain_sum(t)
}

// The check of a block: of its bytes after it. In rows of 64 bytes, whose weights the compiler knows.
#[tactic(auto, using(crate::proofs::Laws::CheckRowLaws::rows_first))]
pub fn check_of(b: &[u8]) -> u32
    requires { length b.now ≡ block_bytes }
    ensures { result ≡ check_of (drop check_bytes b.now) }
{
    let mut sum: u32 = 1;
    sum += rising_sum(&b[CHECK_BYTES..ROW_BYTES]);
    for row in 1..BLOCK_BYTES / ROW_BYTES {
        let at = ROW_BYTES * row;
        sum += row_sum(&b[at..at + ROW_BYTES], (at - CHECK_BYTES) as u32);
    }
    sum % CHECK_MODULUS
}

// Whether a block's check holds.
pub fn check_holds(b: &[u8]) -> bool
    requires { length b.now ≡ block_bytes }
    ensures { result ≡ checked b.now }
{
    read2(b, 0) == check_of(b) as u64
}

// A block with its check placed in front.
pub fn seal(b: [u8; BLOCK_BYTES]) -> [u8; BLOCK_BYTES]
    ensures { result ≡ sealed (drop check_bytes b) }
{
    let check = check_of(&b) as u16;
    let mut s = b;
    s[..CHECK_BYTES].copy_from_slice(&check.to_le_bytes());
    s
}

// The head without its check.
pub fn head_fields(member: Member, count: usize, promise: u64) -> [u8; BLOCK_BYTES]
    ensures { result ≡ unchecked (head_body member.set.settings member.brick count promise) }
{
    let s = member.set.settings;
    let mut b = [0u8; BLOCK_BYTES];
    b[KIND] = HEAD_KIND;
    b[HEAD_N] = s.n as u8;
    b[HEAD_M] = s.m as u8;
    b[HEAD_BRICK] = member.brick as u8;
    b[HEAD_CAPACITY] = s.capacity as u8;
    store(&mut b, HEAD_SIZE, &s.size.to_le_bytes()[..2]);
    store(&mut b, HEAD_COUNT, &count.to_le_bytes()[..2]);
    store(&mut b, HEAD_PROMISE, &promise.to_le_bytes());
    b
}

// The head with its check.
#[tactic(auto, using(crate::proofs::Laws::BlockStoreLaws::sealed_of), unfolding(crate::specs::Block::head_block))]
pub fn head(member: Member, count: usize, promise: u64) -> [u8; BLOCK_BYTES]
    ensures { result ≡ head_block member.set.settings member.brick count promise }
{
    seal(head_fields(member, count, promise))
}

// A block of the log without its check: an entry, or a mark.
fn slot_fields(kind: u8, time: u64, size: usize, block: &[u8]) -> [u8; BLOCK_BYTES]
    requires { length block.now ≤ max_size }
    ensures { result ≡ unchecked (slot_body kind time size block.now) }
{
    let mut b = [0u8; BLOCK_BYTES];
    store(&mut b, ENTRY_HELD, block);
    b[KIND] = kind;
    store(&mut b, ENTRY_TIME, &time.to_le_bytes());
    store(&mut b, ENTRY_SIZE, &size.to_le_bytes()[..2]);
    b
}

// An entry without its check.
#[tactic(auto, unfolding(crate::specs::Block::entry_body))]
pub fn entry_fields(time: u64, block: &[u8]) -> [u8; BLOCK_BYTES]
    requires { length block.now ≤ max_size }
    ensures { result ≡ unchecked (entry_body time block.now) }
{
    slot_fields(ENTRY_KIND, time, block.len(), block)
}

// An entry with its check.
#[tactic(auto, using(crate::proofs::Laws::BlockStoreLaws::sealed_of), unfolding(crate::specs::Block::entry_block))]
pub fn entry(time: u64, block: &[u8]) -> [u8; BLOCK_BYTES]
    requires { length block.now ≤ max_size }
    ensures { result ≡ entry_block time block.now }
{
    seal(entry_fields(time, block))
}

// A mark without its check.
#[tactic(auto, unfolding(crate::specs::Block::mark_body))]
pub fn mark_fields(time: u64, size: usize) -> [u8; BLOCK_BYTES]
    ensures { result ≡ unchecked (mark_body time size) }
{
    slot_fields(MARK_KIND, time, size, &[])
}

// A mark with its check.
#[tactic(auto, using(crate::proofs::Laws::BlockStoreLaws::sealed_of), unfolding(crate::specs::Block::mark_block))]
pub fn mark(time: u64, size: usize) -> [u8; BLOCK_BYTES]
    ensures { result ≡ mark_block time size }
{
    seal(mark_fields(time, size))
}

// An unused block: 510 zeros, and the check of 1 placed in front.
pub fn unused() -> [u8; BLOCK_BYTES]
    ensures { result ≡ unused_block }
{
    let mut b = [0u8; BLOCK_BYTES];
    b[0] = 1;
    b
}

// Whether two blocks are the same but for their checks.
// stays: by `byte_lists::same_bytes`, as every comparison of bytes; a name for what is compared.
pub fn same_body(a: &[u8], b: &[u8]) -> bool
    requires a_len { length a.now ≡ block_bytes }
    requires b_len { length b.now ≡ block_bytes }
    ensures { result ≡ same (drop check_bytes a.now) (drop check_bytes b.now) }
{
    byte_lists::same_bytes(&a[CHECK_BYTES..], &b[CHECK_BYTES..])
}

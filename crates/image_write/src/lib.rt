// Changing a saved brick where it is lent: a fresh one, its head, an entry more, entries less.
#![tactic(auto)]

ghost use Rattle.std.specs.Prelude.{◌≡◌, ◌+◌, ◌-◌, ◌*◌, ◌≤◌, ◌<◌, length};
ghost use Rattle.settings.specs.Ranges.{SettingsRange};
ghost use Rattle.settings.specs.Refusal.{refusal_in};
ghost use Rattle.image_block.specs.Block.{head_block, entry_block, mark_block};
ghost use Rattle.byte_lists.specs.Lists.{put, zeros};
ghost use Rattle.image.specs.Image.{image_size, image_of};
ghost use Rattle.image.specs.Brick.{fresh_brick};
ghost use Rattle.image.specs.Opening.{lending_refusal};
ghost use Rattle.image_write.specs.Saving.{fresh_after};
ghost use Rattle.image_write.specs.Workers.{cleared, shifted, held_own};
ghost use Rattle.image_block.specs.Block.{block_bytes};
ghost use Rattle.settings.specs.Ranges.{max_size};

use byte_lists::store;
use image::check_lending;
use image_block::{BLOCK_BYTES, ENTRY_HELD, Member, entry, head, mark, unused};
use settings::{Checked, MAX_SIZE, Refusal, Settings};

// The head, written anew: 512 bytes.
#[tactic(auto, using(image_block::proofs::Laws::LayoutLaws::head_length), unfolding(image::specs::Image::image_size))]
pub fn write_head(s: Settings, brick: usize, image: &mut [u8], count: usize, promise: u64)
    requires settings_range { SettingsRange s }
    requires brick_lt_n { brick < s.n }
    requires image_len { length image.old ≡ image_size s }
    ensures { image.new ≡ put 0 (head_block s brick count promise) image.old }
{
    let set = Checked { settings: s };
    store(image, 0, &head(Member { set, brick }, count, promise));
}

// An entry, written from a place on: 512 bytes.
pub fn write_entry(image: &mut [u8], at: usize, time: u64, block: &[u8])
    requires { (at + block_bytes ≤ length image.old) × (length block.now ≤ max_size) }
    ensures { image.new ≡ put at (entry_block time block.now) image.old }
{
    store(image, at, &entry(time, block));
}

// A mark, written from a place on: 512 bytes.
pub fn write_mark(image: &mut [u8], at: usize, time: u64, size: usize)
    requires { at + block_bytes ≤ length image.old }
    ensures { image.new ≡ put at (mark_block time size) image.old }
{
    store(image, at, &mark(time, size));
}

// The blocks from one number up to another, made unused.
pub fn clear_blocks(image: &mut [u8], from: usize, to: usize)
    requires { (from ≤ to) × (block_bytes * to ≤ length image.old) }
    ensures { image.new ≡ cleared from (to - from) image.old }
{
    let b = unused();
    for k in from..to {
        store(image, BLOCK_BYTES * k, &b);
    }
}

// A copy of a block.
// stays: two parts of an image may not be lent at once, and the library's `copy_within`, in its place, goes byte by byte.
fn copied(part: &[u8]) -> [u8; BLOCK_BYTES]
    requires { length part.now ≡ block_bytes }
    ensures { result ≡ part.now }
{
    part.try_into().unwrap()
}

// An entry's block, which stands in another block of the image, written into the entry's own; nothing to do where it stands there.
pub fn hold_own(image: &mut [u8], size: usize, own: usize, holder: usize, time: u64)
    requires size_le_max_size { size ≤ max_size }
    requires own_in_bounds { (holder ≡ own → ⊥) → (block_bytes * (own + 1) ≤ length image.old) × (block_bytes * (holder + 1) ≤ length image.old) }
    ensures { image.new ≡ held_own size own holder time image.old }
{
    if holder == own {
        return;
    }
    let from = BLOCK_BYTES * holder;
    let b = copied(&image[from..from + BLOCK_BYTES]);
    write_entry(
        image,
        BLOCK_BYTES * own,
        time,
        &b[ENTRY_HELD..ENTRY_HELD + size],
    );
}

// The `kept` entries above the d that go from place `from` on, moved down to it.
pub fn shift_blocks(image: &mut [u8], from: usize, d: usize, kept: usize)
    requires { block_bytes * (from + d + kept + 1) ≤ length image.old }
    ensures { image.new ≡ shifted from d kept image.old }
{
    for k in 0..kept {
        let start = BLOCK_BYTES * (from + d + k + 1);
        let b = copied(&image[start..start + BLOCK_BYTES]);
        store(image, BLOCK_BYTES * (from + k + 1), &b);
    }
}

// The first entry of a fresh brick: time 0, a zero block.
fn write_zero_entry(image: &mut [u8], size: usize)
    requires { (2 * block_bytes ≤ length image.old) × (size ≤ max_size) }
    ensures { image.new ≡ put block_bytes (entry_block 0 (zeros size)) image.old }
{
    let zero = [0u8; MAX_SIZE];
    write_entry(image, BLOCK_BYTES, 0, &zero[..size]);
}

// A fresh brick.
fn fill_fresh(member: Member, image: &mut [u8])
    requires { length image.old ≡ image_size member.set.settings }
    ensures { image.new ≡ image_of member.set.settings member.brick (fresh_brick member.set.settings) }
{
    let s = member.set.settings;
    write_head(s, member.brick, image, 1, 0);
    write_zero_entry(image, s.size);
    clear_blocks(image, 2, s.capacity + 1);
}

// Writes a fresh brick into the lent image, or gives the refusal.
pub fn write_fresh(s: Settings, brick: usize, image: &mut [u8]) -> Result<(), Refusal>
    ensures value { refusal_in result ≡ lending_refusal s brick (length image.old) }
    ensures image_after { image.new ≡ fresh_after s brick image.old }
{
    let member = check_lending(s, brick, image.len())?;
    fill_fresh(member, image);
    Ok(())
}

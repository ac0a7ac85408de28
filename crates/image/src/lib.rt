// The saved brick (document 01, "The saved brick").
#![tactic(auto)]

ghost use Rattle.std.specs.Prelude.{IfOk, List, Ok, ◌≡◌, ◌&&◌, ◌≤◌, ◌<◌, length, drop};
ghost use Rattle.image_block.specs.Block.{unused_body, entry_body, mark_body};
ghost use Rattle.byte_lists.specs.Lists.{same};
ghost use Rattle.image.specs.Brick.{saved_time};
ghost use Rattle.image.specs.Image.{image_size};
ghost use Rattle.image.specs.Parse.{held_in, mark_in, parse};
ghost use Rattle.image.specs.Opening.{entry_for, holding_for, holder_of, opening, opening_in, panel_of, place_in, shown_in, lending_refusal};
ghost use Rattle.settings.specs.Refusal.{refusal_in};
ghost use Rattle.image.specs.Workers.{rises, head_fits, slot_fits, form_low, form_body};
ghost use Rattle.image.specs.Workers.{Hub, scan_refusal, scanned_log};
ghost use Rattle.image_block.specs.declared.Member.{Member};
ghost use Rattle.image.specs.declared.Entry.{Entry};
ghost use Rattle.image.specs.declared.Opened.{Opened};
ghost use Rattle.image_block.specs.Block.{block_bytes, check_bytes};
ghost use Rattle.settings.specs.Ranges.{max_capacity, max_size};

use byte_lists::{read2, read8};
use image_block::{
    BLOCK_BYTES, ENTRY_HELD, ENTRY_TIME, HEAD_COUNT, HEAD_PROMISE, KIND, MARK_KIND, Member,
    check_holds, entry_fields, head_fields, mark_fields, same_body,
};
use settings::{Checked, MAX_CAPACITY, Refusal, Settings, is_time};

// What an entry of the log names: the place of a held block, as its number among the blocks of the image; or it is a mark, and means the
// block of the entry below it.
#[derive(Clone, Copy)]
pub enum Holding {
    Held(usize),
    Same,
}

// An entry of the working log.
#[derive(Clone, Copy)]
pub struct Entry {
    pub time: u64,
    pub holding: Holding,
}

// What the head says: how many entries, and the promise.
#[derive(Clone, Copy)]
pub struct Head {
    pub count: usize,
    pub promise: u64,
}

// An opened brick: its head, with its working log.
// stays: an array with its count in the head, as there is no heap.
#[derive(Clone, Copy)]
pub struct Opened {
    pub head: Head,
    pub log: [Entry; MAX_CAPACITY],
}

// The place that an entry names, 0 for a mark.
#[tactic(auto, unfolding(crate::specs::Opening::place_in))]
pub fn place_of(h: Holding) -> usize
    ensures { result ≡ place_in h }
{
    match h {
        Holding::Held(place) => place,
        Holding::Same => 0,
    }
}

// The block of the image that an entry of the working log means: its own, or of a mark that of the entry below it.
pub fn holder_of(log: [Entry; MAX_CAPACITY], i: usize) -> usize
    requires { i < max_capacity }
    ensures { result ≡ holder_of log i }
{
    for k in (1..i + 1).rev() {
        let entry = log[k];
        let place = place_of(entry.holding);
        if place != 0 {
            return place;
        }
    }
    let lowest = log[0];
    place_of(lowest.holding)
}

// Whether a number is 0 or a valid time.
#[tactic(auto, unfolding(crate::specs::Brick::saved_time))]
fn saved_time(t: u64) -> bool
    ensures { result ≡ saved_time t }
{
    t == 0 || is_time(t)
}

// Whether the time of entry i is above the one before it.
#[tactic(auto, unfolding(crate::specs::Workers::rises))]
fn rising(i: usize, last: u64, time: u64) -> bool
    ensures { result ≡ rises i last time }
{
    i == 0 || last < time
}

// What entry i names.
#[tactic(auto, unfolding(crate::specs::Opening::holding_for))]
fn holding_for(mark: bool, i: usize) -> Holding
    requires { i < max_capacity }
    ensures { result ≡ holding_for mark i }
{
    if mark {
        return Holding::Same;
    }
    Holding::Held(i + 1)
}

// An entry of the working log: entry i of `count`, or a blank.
#[tactic(auto, unfolding(crate::specs::Opening::entry_for, crate::specs::Opening::blank))]
fn entry_for(time: u64, mark: bool, i: usize, count: usize) -> Entry
    requires { i < max_capacity }
    ensures { result ≡ entry_for time mark i count }
{
    if i < count {
        let holding = holding_for(mark, i);
        return Entry { time, holding };
    }
    Entry {
        time: 0,
        holding: Holding::Held(0),
    }
}

// Whether a block is unused, from its kind on.
fn unused_fits(t: &[u8]) -> bool
    requires { length t.now ≡ block_bytes }
    ensures { result ≡ same (drop check_bytes t.now) unused_body }
{
    same_body(t, &[0u8; BLOCK_BYTES])
}

// Whether a block is, from its kind on, the entry of that time with the bytes that stand there.
#[tactic(auto, using(crate::proofs::Laws::FitLaws::entry_same))]
fn entry_fits(size: usize, t: &[u8], time: u64) -> bool
    requires { (size ≤ max_size) × (length t.now ≡ block_bytes) }
    ensures { result ≡ same (drop check_bytes t.now) (entry_body time (held_in size t.now)) }
{
    same_body(t, &entry_fields(time, &t[ENTRY_HELD..ENTRY_HELD + size]))
}

// Whether a block is, from its kind on, the mark of that time.
#[tactic(auto, using(crate::proofs::Laws::FitLaws::same_built))]
fn mark_fits(size: usize, t: &[u8], time: u64) -> bool
    requires { length t.now ≡ block_bytes }
    ensures { result ≡ same (drop check_bytes t.now) (mark_body time size) }
{
    same_body(t, &mark_fields(time, size))
}

// Whether a block of the log says that it is a mark.
#[tactic(auto, unfolding(crate::specs::Parse::mark_in))]
pub fn is_mark(t: &[u8]) -> bool
    requires { length t.now ≡ block_bytes }
    ensures { result ≡ mark_in t.now }
{
    t[KIND] == MARK_KIND
}

// Whether a block of the log is as its kind says; the lowest is no mark.
#[tactic(auto, unfolding(crate::specs::Workers::form_low, crate::specs::Workers::form_body))]
fn form_fits(size: usize, t: &[u8], time: u64, i: usize) -> bool
    requires { (size ≤ max_size) × (length t.now ≡ block_bytes) }
    ensures { result ≡ form_low t.now i && same (drop check_bytes t.now) (form_body size t.now time) }
{
    if !is_mark(t) {
        return entry_fits(size, t, time);
    }
    0 < i && mark_fits(size, t, time)
}

// Whether the block of entry i, or the unused block in its place, is as it should be.
#[tactic(auto, unfolding(crate::specs::Workers::slot_fits))]
fn slot_fits(size: usize, t: &[u8], time: u64, i: usize, count: usize, last: u64) -> bool
    requires { (size ≤ max_size) × (length t.now ≡ block_bytes) }
    ensures { result ≡ slot_fits size t.now time i count last }
{
    if count <= i {
        return unused_fits(t);
    }
    saved_time(time) && rising(i, last, time) && form_fits(size, t, time, i)
}

// Whether the head is as it should be, from its kind on.
#[tactic(auto, unfolding(crate::specs::Workers::head_fits, crate::specs::Brick::count_sound), using(crate::proofs::Laws::FitLaws::same_built))]
fn head_fits(member: Member, t: &[u8], head: Head) -> bool
    requires { length t.now ≡ block_bytes }
    ensures { result ≡ head_fits member.set.settings member.brick t.now head.count head.promise }
{
    1 <= head.count
        && head.count <= member.set.settings.capacity
        && saved_time(head.promise)
        && same_body(t, &head_fields(member, head.count, head.promise))
}

// The brick that is lent an image of so many bytes: refused with 1 for a setting, with 2 for the length, with 3 for its number.
pub fn check_lending(s: Settings, brick: usize, len: usize) -> Result<Member, Refusal>
    ensures value { refusal_in result ≡ lending_refusal s brick len }
    ensures member { IfOk result (λ (m : Member). (m.set.settings ≡ s) × (m.brick ≡ brick) × (len ≡ image_size s)) }
{
    let set = s.checked()?;
    if len != BLOCK_BYTES * (s.capacity + 1) {
        return Err(Refusal::BadLength);
    }
    if s.n <= brick {
        return Err(Refusal::BadNumber);
    }
    Ok(Member { set, brick })
}

// The blocks after the head, each read once, against a count: the working log, or 5 where a check fails, or else 6 where one is not as it
// should be.
fn read_blocks(set: Checked, image: &[u8], count: usize) -> Result<[Entry; MAX_CAPACITY], Refusal>
    requires { length image.now ≡ image_size set.settings }
    ensures value { refusal_in result ≡ scan_refusal set.settings.size set.settings.capacity image.now count }
    ensures log { IfOk result (λ (log : List Entry). log ≡ scanned_log set.settings.capacity image.now count) }
{
    let size = set.settings.size;
    let mut log = [entry_for(0, false, 0, 0); MAX_CAPACITY];
    let mut fits = true;
    let mut last = 0;
    for i in 0..set.settings.capacity {
        let at = BLOCK_BYTES * (i + 1);
        let t = &image[at..at + BLOCK_BYTES];
        if !check_holds(t) {
            return Err(Refusal::BadCheck);
        }
        let time = read8(t, ENTRY_TIME);
        fits = fits && slot_fits(size, t, time, i, count, last);
        log[i] = entry_for(time, is_mark(t), i, count);
        last = time;
    }
    if !fits {
        return Err(Refusal::BadRecord);
    }
    Ok(log)
}

// Opens a saved brick: each block is read once.
pub fn open(s: Settings, brick: usize, image: &[u8]) -> Result<Opened, Refusal>
    ensures value { opening_in result ≡ opening (parse s brick image.now) }
    ensures opened { IfOk result (λ (o : Opened). Hub s brick image.now (opening_in (Ok o)) o.head) }
{
    let member = check_lending(s, brick, image.len())?;
    let t = &image[..BLOCK_BYTES];
    if !check_holds(t) {
        return Err(Refusal::BadCheck);
    }
    let head = Head {
        count: read2(t, HEAD_COUNT) as usize,
        promise: read8(t, HEAD_PROMISE),
    };
    let log = read_blocks(member.set, image, head.count)?;
    if !head_fits(member, t, head) {
        return Err(Refusal::BadRecord);
    }
    Ok(Opened { head, log })
}

// What the service panel shows of a brick.
#[derive(Clone, Copy)]
pub struct Panel {
    pub promise: u64,
    pub newest: u64,
}

// A brick's promise and its newest time, from its image.
#[tactic(auto, using(crate::proofs::Laws::HubLaws::panel_refused, crate::proofs::Laws::HubLaws::show_values))]
pub fn show(s: Settings, brick: usize, image: &[u8]) -> Result<Panel, Refusal>
    ensures { shown_in result ≡ panel_of (parse s brick image.now) }
{
    let opening = open(s, brick, image);
    let Ok(opened) = opening else {
        return Err(opening.unwrap_err());
    };
    let newest = opened.log[opened.head.count - 1];
    Ok(Panel {
        promise: opened.head.promise,
        newest: newest.time,
    })
}

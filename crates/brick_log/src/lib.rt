// What a message asks of a brick's log, and what it changes in the brick's image (document 01, "What a brick does").
// inner: call `brick::receive`
#![tactic(auto)]

ghost use Rattle.std.specs.Prelude.{◌≡◌, ◌&&◌, ◌≤◌, ◌<◌, ◌+◌, ◌*◌, leb, ltb, length, false, IfSome};
ghost use Rattle.brick_log.specs.Workers.{cut_for, under_in, time_in, under_for, looked_in, trim_plan, drop_at, drop_plan, plan_in};
ghost use Rattle.brick_log.specs.Workers.{read_place, block_plan, plan_for, known_of, LogReady, gave_of, RemoveReady, removed_by};
ghost use Rattle.image.specs.Image.{image_of};
ghost use Rattle.image.specs.Parse.{brick_in};
ghost use Rattle.image_write.specs.Workers.{slot_of};
ghost use Rattle.image_write.specs.Saving.{with_promise, appended, block_entry};
ghost use Rattle.brick_answer.specs.Comparisons.{comparison_in};
ghost use Rattle.brick_log.specs.BrickRules.{newest_block, modified_entry, comparison_to, brick_after};
ghost use Rattle.byte_lists.specs.Lists.{put};
ghost use Rattle.erasure.specs.Recoding.{recoded_block};
ghost use Rattle.image_block.specs.Block.{block_bytes, entry_block};
ghost use Rattle.message.specs.Kinds.{modify_kind};
ghost use Rattle.message.specs.Messages.{is_silent};
ghost use Rattle.settings.specs.Ranges.{max_bricks, max_capacity, max_size};

use brick_answer::Comparison;
use erasure::recode_into;
use image::{Entry, holder_of};
use image_block::{BLOCK_BYTES, ENTRY_HELD};
use image_write::{clear_blocks, hold_own, shift_blocks, write_entry, write_head, write_mark};
use message::{DROP, MODIFY, Message, ORDER_BLOCK, ORDER_READ, READ, TRIM, WRITE};
use settings::{MAX_BRICKS, MAX_CAPACITY, MAX_SIZE, Settings};

// The working log of an opened brick: its entries, of which the first `count` are the brick's.
#[derive(Clone, Copy)]
pub struct Log {
    pub entries: [Entry; MAX_CAPACITY],
    pub count: usize,
    ghost in_range: { (1 ≤ count) × (count ≤ max_capacity) },
}

// What is known of an opened brick: how many entries, its promise, its newest time, and the block of the image that the newest entry means.
#[derive(Clone, Copy)]
pub struct Known {
    pub count: usize,
    pub promise: u64,
    pub newest: u64,
    pub holder: usize,
}

// What goes from the log: how many entries, from which place on, and of the entry right above them the block of the image that holds it and
// its time.
#[derive(Clone, Copy)]
pub struct Removal {
    pub from: usize,
    pub cut: usize,
    pub holder: usize,
    pub lowest: u64,
}

// What a message asks for, found in the working log.
// stays: three cases of its own and no Option: `Nothing` is a Drop that takes no entry out.
#[derive(Clone, Copy)]
pub enum Plan {
    // the block that goes with the reply, by its number in the image, and the time that the reply names
    Answer { place: Option<usize>, found: u64 },
    Remove(Removal),
    Nothing,
}

// Whether an Order of that time is granted.
pub fn order_yes(newest: u64, promise: u64, time: u64) -> bool
    ensures { result ≡ ltb newest time && leb promise time }
{
    newest < time && promise <= time
}

impl Log {
    // What is known of the brick, of that promise.
    pub fn known(&self, promise: u64) -> Known
        ensures { result ≡ known_of self.now.entries self.now.count promise }
    {
        let last = self.count - 1;
        Known {
            count: self.count,
            promise,
            newest: self.entries[last].time,
            holder: holder_of(self.entries, last),
        }
    }

    // How many entries a Trim drops: those under its time, other than the newest.
    fn cut_for(&self, time: u64) -> usize
        ensures { result ≡ cut_for self.now.entries self.now.count time }
    {
        let last = self.count - 1;
        self.entries[..last]
            .iter()
            .take_while(|e| e.time < time)
            .count()
    }

    // The highest entry under max.
    fn look_under(&self, max: u64) -> Option<usize>
        ensures { result ≡ looked_in (under_in self.now.entries max self.now.count) }
    {
        self.entries[..self.count]
            .iter()
            .rposition(|e| e.time < max)
    }

    // The entry of that time.
    fn find_time(&self, time: u64) -> Option<usize>
        ensures { result ≡ looked_in (time_in self.now.entries time self.now.count) }
    {
        self.entries[..self.count]
            .iter()
            .rposition(|e| e.time == time)
    }

    // What a Trim drops, and of the lowest entry that it keeps where its block stands and its time.
    #[tactic(auto, unfolding(crate::specs::Workers::trim_plan, image::specs::Opening::blank), using(crate::proofs::Laws::LookLaws::cut_low))]
    fn trim_plan(&self, time: u64) -> Removal
        ensures { result ≡ trim_plan self.now.entries (cut_for self.now.entries self.now.count time) }
    {
        let cut = self.cut_for(time);
        Removal {
            from: 0,
            cut,
            holder: holder_of(self.entries, cut),
            lowest: self.entries[cut].time,
        }
    }

    // A Drop of entry i: the entry right above it becomes its block, if it is a mark that means the block that goes.
    #[tactic(auto, unfolding(crate::specs::Workers::drop_at))]
    fn drop_at(&self, i: usize) -> Removal
        requires { i < self.now.count }
        ensures { result ≡ drop_at self.now.entries self.now.count i }
    {
        let above = i + 1;
        let free = Removal {
            from: i,
            cut: 1,
            holder: above + 1,
            lowest: 0,
        };
        if above == self.count || holder_of(self.entries, above) != above {
            return free;
        }
        Removal {
            holder: above,
            lowest: self.entries[above].time,
            ..free
        }
    }

    // What a Drop takes out: the entry of its time, unless it is the only one.
    #[tactic(auto, unfolding(crate::specs::Workers::drop_plan, crate::specs::Workers::drop_in), using(crate::proofs::Laws::LookLaws::found_low))]
    fn drop_plan(&self, time: u64) -> Plan
        ensures { result ≡ drop_plan self.now.entries self.now.count time }
    {
        if self.count == 1 {
            return Plan::Nothing;
        }
        let Some(i) = self.find_time(time) else {
            return Plan::Nothing;
        };
        Plan::Remove(self.drop_at(i))
    }

    // What Order-and-read gives: the block and the time of the highest entry under max.
    #[tactic(auto, unfolding(crate::specs::Workers::plan_in, crate::specs::Workers::under_for, crate::specs::Workers::granted, crate::specs::Workers::looked_in, image::specs::Opening::blank), using(crate::proofs::Laws::LookLaws::found_low))]
    fn look_plan(&self, k: Known, msg: Message) -> Plan
        ensures { result ≡ plan_in self.now.entries (looked_in (under_for self.now.entries self.now.count k msg)) }
    {
        if !order_yes(k.newest, k.promise, msg.time) {
            return NO_ANSWER;
        }
        let Some(i) = self.look_under(msg.max) else {
            return NO_ANSWER;
        };
        Plan::Answer {
            place: Some(holder_of(self.entries, i)),
            found: self.entries[i].time,
        }
    }

    // What a message asks for.
    #[tactic(auto, unfolding(crate::specs::Workers::plan_for))]
    pub fn plan_for(&self, k: Known, msg: Message, brick: usize) -> Plan
        requires { brick < max_bricks }
        ensures { result ≡ plan_for self.now.entries self.now.count k msg brick }
    {
        match msg.kind {
            TRIM => Plan::Remove(self.trim_plan(msg.time)),
            DROP => self.drop_plan(msg.time),
            READ => Plan::Answer {
                place: read_place(k, msg.targets, brick),
                found: k.newest,
            },
            ORDER_READ => self.look_plan(k, msg),
            ORDER_BLOCK => block_plan(k, msg, brick),
            _ => NO_ANSWER,
        }
    }
}

// No block and no time go with the reply.
const NO_ANSWER: Plan = Plan::Answer {
    place: None,
    found: 0,
};

// The newest block, where Read is granted and the brick is a target.
#[tactic(auto, unfolding(crate::specs::Workers::read_place, message::specs::Flags::member))]
fn read_place(k: Known, targets: [u8; MAX_BRICKS], brick: usize) -> Option<usize>
    requires { brick < max_bricks }
    ensures { result ≡ read_place k targets brick }
{
    if k.promise <= k.newest && targets[brick] == 1 {
        return Some(k.holder);
    }
    None
}

// What the first round of a block write gives: the newest time, and brick j its block.
#[tactic(auto, unfolding(crate::specs::Workers::block_plan, crate::specs::Workers::granted))]
fn block_plan(k: Known, msg: Message, brick: usize) -> Plan
    ensures { result ≡ block_plan k msg brick }
{
    if !order_yes(k.newest, k.promise, msg.time) {
        return NO_ANSWER;
    }
    let own = brick == msg.block;
    Plan::Answer {
        place: own.then_some(k.holder),
        found: k.newest,
    }
}

// A saved brick that was opened, at its image: its settings, its number, and what is known of it.
// stays: the image is no field of it. LogReady holds of the image as it is lent, and no longer once a block of it is written, before the
// head is; what a struct's ghost field says would have to hold at each of these writes.
#[derive(Clone, Copy)]
pub struct Saved {
    pub s: Settings,
    pub brick: usize,
    pub k: Known,
}

impl Saved {
    // The head with another promise.
    fn order(self, image: &mut [u8], time: u64)
        requires { LogReady self.s self.brick image.old self.k }
        ensures { image.new ≡ image_of self.s self.brick (with_promise (brick_in self.s image.old) time) }
    {
        write_head(self.s, self.brick, image, self.k.count, time);
    }

    // An entry more.
    #[tactic(auto, unfolding(image::specs::Image::image_size))]
    fn write(self, image: &mut [u8], time: u64, block: &[u8])
        requires log_ready { LogReady self.s self.brick image.old self.k }
        requires block_len { (length block.now ≡ self.s.size) × (self.k.count < self.s.capacity) }
        ensures { image.new
            ≡ image_of self.s self.brick (appended (brick_in self.s image.old) (block_entry time block.now)) }
    {
        let n = self.k.count + 1;
        write_entry(image, BLOCK_BYTES * n, time, block);
        write_head(self.s, self.brick, image, n, self.k.promise);
    }

    // A parity brick's entry for Modify: its newest block recoded.
    #[tactic(auto, unfolding(image::specs::Image::image_size))]
    fn write_recoded(self, image: &mut [u8], msg: Message, block: &[u8], old: &[u8])
        requires log_ready { LogReady self.s self.brick image.old self.k }
        requires block_len { (length block.now ≡ self.s.size) × (length old.now ≡ self.s.size) }
        requires block_lt_m { (msg.block < self.s.m) × (self.k.count < self.s.capacity) }
        ensures { image.new ≡ put (block_bytes * (self.k.count + 1))
            (entry_block msg.time
            (recoded_block self.s.n self.s.m self.brick msg.block (newest_block (brick_in self.s image.old)) old.now block.now))
            image.old }
    {
        let from = BLOCK_BYTES * self.k.holder + ENTRY_HELD;
        let e = from + self.s.size;
        let mut buffer = [0u8; MAX_SIZE];
        let recoded = &mut buffer[..self.s.size];
        recode_into(
            self.s.n,
            self.s.m,
            self.brick,
            msg.block,
            &image[from..e],
            old,
            block,
            recoded,
        );
        write_entry(image, BLOCK_BYTES * (self.k.count + 1), msg.time, recoded);
    }

    // A brick's entry for Modify: brick j stores the new block, another data brick a mark, a parity brick its block recoded.
    #[tactic(auto, unfolding(image::specs::Image::image_size))]
    fn write_modified(self, image: &mut [u8], msg: Message, block: &[u8], old: &[u8])
        requires log_ready { LogReady self.s self.brick image.old self.k }
        requires block_len { (length block.now ≡ self.s.size) × (length old.now ≡ self.s.size) }
        requires block_lt_m { (msg.block < self.s.m) × (self.k.count < self.s.capacity) }
        ensures { image.new ≡ put (block_bytes * (self.k.count + 1))
            (slot_of self.s.size (modified_entry self.s self.brick (brick_in self.s image.old) msg block.now old.now))
            image.old }
    {
        let at = BLOCK_BYTES * (self.k.count + 1);
        if self.brick == msg.block {
            write_entry(image, at, msg.time, block);
        } else if self.brick < self.s.m {
            write_mark(image, at, msg.time, self.s.size);
        } else {
            self.write_recoded(image, msg, block, old);
        }
    }

    // Modify.
    fn modify(self, image: &mut [u8], msg: Message, block: &[u8], old: &[u8])
        requires log_ready { LogReady self.s self.brick image.old self.k }
        requires block_len { (length block.now ≡ self.s.size) × (length old.now ≡ self.s.size) }
        requires block_lt_m { (msg.block < self.s.m) × (self.k.count < self.s.capacity) }
        ensures { image.new
            ≡ image_of self.s self.brick (appended (brick_in self.s image.old)
            (modified_entry self.s self.brick (brick_in self.s image.old) msg block.now old.now)) }
    {
        self.write_modified(image, msg, block, old);
        write_head(self.s, self.brick, image, self.k.count + 1, self.k.promise);
    }

    // A Trim or a Drop: the entries go, and the promise remains. The entry right above them gets its block first, where another block of the
    // image holds it.
    #[tactic(auto, unfolding(image::specs::Image::image_size))]
    pub fn remove(self, image: &mut [u8], r: Removal)
        requires log_ready { LogReady self.s self.brick image.old self.k }
        requires remove_ready { RemoveReady (brick_in self.s image.old) self.k r }
        ensures { image.new ≡ image_of self.s self.brick (removed_by (brick_in self.s image.old) r) }
    {
        if r.cut == 0 {
            return;
        }
        let above = r.from + r.cut;
        let own = above + 1;
        hold_own(image, self.s.size, own, r.holder, r.lowest);
        shift_blocks(image, r.from, r.cut, self.k.count - above);
        let kept = self.k.count - r.cut;
        clear_blocks(image, kept + 1, self.k.count + 1);
        write_head(self.s, self.brick, image, kept, self.k.promise);
    }

    // What a message with a reply changes, by the comparison that said no: nothing, unless none did.
    pub fn change(
        self,
        image: &mut [u8],
        msg: Message,
        said: Option<Comparison>,
        block: &[u8],
        old: &[u8],
    )
        requires log_ready { LogReady self.s self.brick image.old self.k }
        requires block_len { (length block.now ≡ self.s.size) × (length old.now ≡ self.s.size) }
        requires kind_value { (is_silent msg.kind ≡ false) × (msg.kind ≡ modify_kind → msg.block < self.s.m)
            × (comparison_in said ≡ comparison_to self.s (brick_in self.s image.old) msg) }
        ensures { image.new
            ≡ image_of self.s self.brick (brick_after self.s self.brick (brick_in self.s image.old) msg block.now old.now) }
    {
        if said.is_some() {
            return;
        }
        match msg.kind {
            READ => {}
            WRITE => self.write(image, msg.time, block),
            MODIFY => self.modify(image, msg, block, old),
            _ => self.order(image, msg.time),
        }
    }
}

// A block of the image copied into the reply's buffer, if one goes with the reply.
#[tactic(auto, unfolding(crate::specs::Workers::gave_of))]
pub fn give(image: &[u8], size: usize, place: Option<usize>, out: &mut [u8])
    requires out_len { (length out.old ≡ size) × (size ≤ max_size) }
    requires in_image { IfSome place (λ place. block_bytes * (place + 1) ≤ length image.now) }
    ensures { out.new ≡ gave_of image.now size place out.old }
{
    let Some(place) = place else {
        return;
    };
    let a = BLOCK_BYTES * place + ENTRY_HELD;
    let e = a + size;
    out.copy_from_slice(&image[a..e]);
}

// A carried message at its brick (document 01, "The bench"): lost, refused, or received, and its reply sent.
// inner: call `bench_player::play_line`
#![tactic(auto)]

ghost use Rattle.std.specs.Prelude.{◌≡◌, false, List, ℕ, ◌+◌, ◌≤◌, ◌<◌, length};
ghost use Rattle.bench_sent.specs.Sent.{is_reply, item_at};
ghost use Rattle.bench_rules.specs.Play.{carries};
ghost use Rattle.bench_rules.specs.Turning.{lent, world_in};
ghost use Rattle.bench_rules.specs.Workers.{Turned};
ghost use Rattle.bench_carry_message.specs.Workers.{Lends, Reaching, Settled, may_send, sent_after_message};
ghost use Rattle.bench_carry_message.specs.Workers.{image_in, of_the_size, past_limit};
ghost use Rattle.bench_limits.specs.Limits.{bench_size, last_message, images_length, numbers_length, bytes_length, line_room};
ghost use Rattle.bench_state.specs.Workers.{Fits};
ghost use Rattle.brick.specs.Receive.{given_in, receive_refusal};
ghost use Rattle.settings.specs.Refusal.{number_of_refusal, refusal_in};

use bench_limits::{BLOCK_PLACE, IMAGE_ROOM, LAST_MESSAGE, OLD_BLOCK_PLACE, ROW_BYTES, SIZE, UP};
use bench_rules::{After, refuse_as};
use bench_state::Bench;
use message::{Message, Reply, is_silent};
use settings::{Refusal, Settings};

// What a brick gave: a reply is sent.
fn settle(
    b: Bench,
    given: Result<Option<Reply>, Refusal>,
    block: &[u8],
    numbers: &mut [u64],
    bytes: &mut [u8],
    at: usize,
    out: &mut [u8],
) -> After
    requires g_bound { (sent_after_message b.sent (given_in given) ≤ last_message) × (length block.now ≡ b.settings.size) × (b.settings.size ≤ bench_size) }
    requires numbers_len { (length numbers.old ≡ numbers_length) × (length bytes.old ≡ bytes_length) × (at + line_room ≤ length out.old) }
    ensures { Settled b (given_in given) block.now numbers.old bytes.old at out.old result
        numbers.new bytes.new out.new }
{
    match given {
        Ok(Some(reply)) => {
            bench_sent::put_reply(b.sent, reply, block, numbers, bytes);
            let bench = bench_state::with_sent(b, b.sent + 1);
            After { bench, used: at }
        }
        Ok(None) => After { bench: b, used: at },
        Err(refusal) => refuse_as(b, refusal, at, out),
    }
}

// A message at its brick, which is up.
fn deliver(
    b: Bench,
    k: usize,
    brick: usize,
    msg: Message,
    images: &mut [u8],
    numbers: &mut [u64],
    bytes: &mut [u8],
    at: usize,
    out: &mut [u8],
) -> After
    requires lends { Lends b images.old numbers.old bytes.old × Reaching b numbers.old bytes.old k brick msg }
    requires line_room_in_bounds { at + line_room ≤ length out.old }
    ensures { (kept : List ℕ) →
        let l = lent images.old kept numbers.old bytes.old in
        let l' = lent images.new kept numbers.new bytes.new in
        Turned b l at out.old
        (carries b.settings (world_in b l) k (item_at b.settings.size numbers.old bytes.old k))
        result l' out.new }
{
    let s = b.settings;
    let start = brick * IMAGE_ROOM;
    let end = start + image_block::BLOCK_BYTES * (s.capacity + 1);
    let from = k * ROW_BYTES + BLOCK_PLACE;
    let old_from = k * ROW_BYTES + OLD_BLOCK_PLACE;
    let mut block = [0u8; SIZE];
    let given = volume::receive(
        s,
        brick,
        &mut images[start..end],
        msg,
        &bytes[from..from + s.size],
        &bytes[old_from..old_from + s.size],
        &mut block[..s.size],
    );
    settle(b, given, &block[..s.size], numbers, bytes, at, out)
}

// Whether a message may be carried: every one but a Trim or a Drop sends a reply.
#[tactic(auto, unfolding(crate::specs::Workers::may_send))]
fn may_send(kind: u8, sent: usize) -> bool
    ensures { result ≡ may_send kind sent }
{
    is_silent(kind) || sent < LAST_MESSAGE
}

// Why the brick refuses a message at its image; the image is only looked at.
fn check_at(s: Settings, brick: usize, image: &[u8], msg: Message) -> Result<(), Refusal>
    ensures { refusal_in result ≡ receive_refusal s brick image.now msg (of_the_size s) }
{
    brick::check_front(s, 1, brick, image.len(), msg, s.size, s.size, s.size)?;
    let opening = image::open(s, brick, image);
    let Ok(_) = opening else {
        return Err(opening.unwrap_err());
    };
    msg.check(s.n, s.m)
}

// What a message is refused with whose reply may no longer be sent: the brick's own refusal, if the brick refuses it, else 12.
fn past_limit(s: Settings, brick: usize, images: &[u8], msg: Message) -> Refusal
    requires { Fits s × (brick < s.n) × (length images.now ≡ images_length) }
    ensures { number_of_refusal result ≡ past_limit (receive_refusal s brick (image_in s brick images.now) msg (of_the_size s)) }
{
    let start = brick * IMAGE_ROOM;
    let end = start + image_block::BLOCK_BYTES * (s.capacity + 1);
    match check_at(s, brick, &images[start..end], msg) {
        Err(refusal) => refusal,
        Ok(()) => Refusal::BadLine,
    }
}

// A carried message.
pub fn carry_message(
    b: Bench,
    k: usize,
    images: &mut [u8],
    numbers: &mut [u64],
    bytes: &mut [u8],
    at: usize,
    out: &mut [u8],
) -> After
    requires lends { Lends b images.old numbers.old bytes.old × (k < b.sent) }
    requires k_value { (is_reply numbers.old k ≡ false) × (at + line_room ≤ length out.old) }
    ensures { (kept : List ℕ) →
        let l = lent images.old kept numbers.old bytes.old in
        let l' = lent images.new kept numbers.new bytes.new in
        Turned b l at out.old
        (carries b.settings (world_in b l) k (item_at b.settings.size numbers.old bytes.old k))
        result l' out.new }
{
    let s = b.settings;
    let brick = bench_sent::brick_at(numbers, k);
    if s.n <= brick {
        return refuse_as(b, Refusal::BadNumber, at, out);
    }
    if b.up[brick] != UP {
        return After { bench: b, used: at };
    }
    let msg = bench_sent::message_at(numbers, bytes, k);
    if !may_send(msg.kind, b.sent) {
        let refusal = past_limit(s, brick, images, msg);
        return refuse_as(b, refusal, at, out);
    }
    deliver(b, k, brick, msg, images, numbers, bytes, at, out)
}

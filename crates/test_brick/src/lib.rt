// The brick at a C boundary of numbers and slices, for the tests and benchmarks that compare it with other code: brick_.. with its image of
// one stripe, volume_.. with the images of all stripes in one row. Every routine refuses the lowest number first: 1, then 2 for a buffer of
// the boundary itself, then what the brick refuses.
// stays: C interface: the six extern "C" functions take and give numbers and slices.
#![tactic(auto)]

ghost use Rattle.std.specs.Prelude.{◌≡◌, length};
ghost use Rattle.test_brick.specs.BrickBoundary.{message_length, reply_length, own_refusal, fresh_with, fresh_at, fresh_row_at, panel_at, entry_pair_at};
ghost use Rattle.test_brick.specs.BrickBoundary.{as_byte, as_bytes, asked_targets_at, message_of, numbers_right, reply_numbers, answer_code, given_buffer};
ghost use Rattle.test_brick.specs.BrickBoundary.{receipt_with, received_at, row_received_at};
ghost use Rattle.volume.specs.ClientPlaces.{settings_with};
ghost use Rattle.brick.specs.Receive.{given_in};
ghost use Rattle.settings.specs.Ranges.{max_bricks};
ghost use Rattle.settings.specs.Refusal.{refusal_in};

use image::{place_of, show};
use image_view::look;
use message::{Message, Reply};
use settings::{MAX_BRICKS, PASSED, Refusal, Settings, number_of};

// The panel's two times, or an entry's time and place.
const PAIR_LENGTH: usize = 2;

// The numbers of a message, and where they stand: the last sixteen are the flags of its targets.
const MESSAGE_LENGTH: usize = 23;

const KIND: usize = 0;

const TIME: usize = 1;

const ROUND: usize = 2;

const MAX: usize = 3;

const STRIPE: usize = 4;

const OLD: usize = 5;

const BLOCK: usize = 6;

const TARGETS: usize = 7;

// The last byte, which is no kind and no flag.
const LAST_BYTE: u64 = 255;

// The numbers of a reply.
const REPLY_LENGTH: usize = 9;

// The number that tells silence from a reply and from every refusal.
const SILENCE: u32 = 100;

// Refused with 1 for a setting outside its range, then 2 for a buffer of the boundary itself.
#[tactic(auto, unfolding(crate::specs::BrickBoundary::own_refusal, settings::specs::Refusal::first_refusal, settings::specs::Ranges::settings_refusal))]
fn check_own(s: Settings, right: bool) -> Result<(), Refusal>
    ensures { refusal_in result ≡ own_refusal s right }
{
    s.check()?;
    if !right {
        return Err(Refusal::BadLength);
    }
    Ok(())
}

// A fresh image.
#[unsafe(no_mangle)]
pub extern "C" fn brick_fresh(
    n: usize,
    m: usize,
    size: usize,
    capacity: usize,
    stripes: usize,
    brick: usize,
    image: &mut [u8],
) -> u32
    ensures { fresh_with result image.new ≡ fresh_at (settings_with n m size capacity stripes) brick image.old }
{
    let s = Settings {
        n,
        m,
        size,
        capacity,
        stripes,
    };
    number_of(image_write::write_fresh(s, brick, image))
}

// A fresh image for each stripe.
#[unsafe(no_mangle)]
pub extern "C" fn volume_fresh(
    n: usize,
    m: usize,
    size: usize,
    capacity: usize,
    stripes: usize,
    brick: usize,
    images: &mut [u8],
) -> u32
    ensures { fresh_with result images.new ≡ fresh_row_at (settings_with n m size capacity stripes) brick images.old }
{
    let s = Settings {
        n,
        m,
        size,
        capacity,
        stripes,
    };
    number_of(volume::write_fresh(s, brick, images))
}

// The panel's two times, into a buffer of two numbers.
#[tactic(auto, unfolding(crate::specs::BrickBoundary::panel_at, crate::specs::BrickBoundary::panel_pair, crate::specs::BrickBoundary::pair_unless, crate::specs::BrickBoundary::shown_buffer, image::specs::Opening::shown_number))]
fn put_panel(s: Settings, brick: usize, image: &[u8], times: &mut [u64]) -> Result<(), Refusal>
    ensures { record { number = refusal_in result; pair = times.new } ≡ panel_at s brick image.now times.old }
{
    check_own(s, times.len() == PAIR_LENGTH)?;
    let panel = show(s, brick, image)?;
    times.copy_from_slice(&[panel.promise, panel.newest]);
    Ok(())
}

// The panel's two times, into a buffer of two numbers.
#[unsafe(no_mangle)]
pub extern "C" fn brick_panel(
    n: usize,
    m: usize,
    size: usize,
    capacity: usize,
    stripes: usize,
    brick: usize,
    image: &[u8],
    times: &mut [u64],
) -> u32
    ensures { record { number = result; pair = times.new }
        ≡ panel_at (settings_with n m size capacity stripes) brick image.now times.old }
{
    let s = Settings {
        n,
        m,
        size,
        capacity,
        stripes,
    };
    number_of(put_panel(s, brick, image, times))
}

// The view's entry at a place, into a buffer of two numbers: its time and the place of its block, 0 for a mark.
#[tactic(auto, unfolding(crate::specs::BrickBoundary::entry_pair_at, crate::specs::BrickBoundary::entry_pair, crate::specs::BrickBoundary::pair_unless, crate::specs::BrickBoundary::entry_buffer, image_view::specs::View::found_number))]
fn put_entry(
    s: Settings,
    brick: usize,
    image: &[u8],
    place: usize,
    found: &mut [u64],
) -> Result<(), Refusal>
    ensures { record { number = refusal_in result; pair = found.new } ≡ entry_pair_at s brick image.now place found.old }
{
    check_own(s, found.len() == PAIR_LENGTH)?;
    let entry = look(s, brick, image, place)?;
    found.copy_from_slice(&[entry.time, place_of(entry.holding) as u64]);
    Ok(())
}

// The view's entry at a place, into a buffer of two numbers.
#[unsafe(no_mangle)]
pub extern "C" fn brick_entry(
    n: usize,
    m: usize,
    size: usize,
    capacity: usize,
    stripes: usize,
    brick: usize,
    image: &[u8],
    place: usize,
    found: &mut [u64],
) -> u32
    ensures { record { number = result; pair = found.new }
        ≡ entry_pair_at (settings_with n m size capacity stripes) brick image.now place found.old }
{
    let s = Settings {
        n,
        m,
        size,
        capacity,
        stripes,
    };
    number_of(put_entry(s, brick, image, place, found))
}

// A reply into a buffer of nine numbers.
#[tactic(auto, unfolding(crate::specs::BrickBoundary::reply_numbers))]
fn put_reply(r: Reply, reply: &mut [u64])
    requires { length reply.old ≡ reply_length }
    ensures { reply.new ≡ reply_numbers r }
{
    reply.copy_from_slice(&[
        r.kind as u64,
        r.brick as u64,
        r.time,
        r.round,
        u64::from(r.yes),
        r.found,
        u64::from(r.held),
        r.stripe as u64,
        r.comparison as u64,
    ]);
}

// What a brick gave, into the reply's buffer: 0 a reply, or silence, or the refusal.
#[tactic(auto, unfolding(crate::specs::BrickBoundary::answer_code, crate::specs::BrickBoundary::given_buffer, brick::specs::Receive::given_number))]
fn put_given(given: Result<Option<Reply>, Refusal>, reply: &mut [u64]) -> u32
    requires { length reply.old ≡ reply_length }
    ensures value { result ≡ answer_code (given_in given) }
    ensures reply_after { reply.new ≡ given_buffer (given_in given) reply.old }
{
    match given {
        Ok(Some(r)) => {
            put_reply(r, reply);
            PASSED
        }
        Ok(None) => SILENCE,
        Err(refusal) => refusal.number(),
    }
}

// A number as a byte; one that no byte holds as the last byte.
#[tactic(auto, unfolding(crate::specs::BrickBoundary::as_byte))]
fn as_byte(k: u64) -> u8
    ensures { result ≡ as_byte k }
{
    k.min(LAST_BYTE) as u8
}

// The message of 23 numbers.
#[tactic(auto, unfolding(crate::specs::BrickBoundary::message_of))]
fn message_of(asked: &[u64]) -> Message
    requires { length asked.now ≡ message_length }
    ensures { result ≡ message_of asked.now }
{
    Message {
        kind: as_byte(asked[KIND]),
        stripe: asked[STRIPE] as usize,
        time: asked[TIME],
        round: asked[ROUND],
        max: asked[MAX],
        old: asked[OLD],
        block: asked[BLOCK] as usize,
        targets: targets_of(asked),
    }
}

// The flags of a message's targets.
fn targets_of(asked: &[u64]) -> [u8; MAX_BRICKS]
    requires { length asked.now ≡ message_length }
    ensures { result ≡ as_bytes asked_targets_at max_bricks asked.now }
{
    std::array::from_fn(|i| as_byte(asked[TARGETS + i]))
}

// Refused with 1 a setting, 2 the numbers of the message or of the reply.
#[tactic(auto, unfolding(crate::specs::BrickBoundary::numbers_right))]
fn check_asked(s: Settings, asked: usize, reply: usize) -> Result<(), Refusal>
    ensures { refusal_in result ≡ own_refusal s (numbers_right asked reply) }
{
    check_own(s, asked == MESSAGE_LENGTH && reply == REPLY_LENGTH)
}

// One message at one image of a brick, with its block and the old block that goes with Modify: 23 numbers in (kind, time, round, max, stripe,
// old time, data block, 16 flags for the targets), nine numbers out (kind, brick, time, round, yes, found, held, stripe, comparison).
#[unsafe(no_mangle)]
pub extern "C" fn brick_receive(
    n: usize,
    m: usize,
    size: usize,
    capacity: usize,
    stripes: usize,
    brick: usize,
    image: &mut [u8],
    asked: &[u64],
    block: &[u8],
    old: &[u8],
    out: &mut [u8],
    reply: &mut [u64],
) -> u32
    ensures { receipt_with result image.new out.new reply.new
        ≡ received_at (settings_with n m size capacity stripes) brick asked.now block.now old.now
        image.old out.old reply.old }
{
    let s = Settings {
        n,
        m,
        size,
        capacity,
        stripes,
    };
    if let Err(refusal) = check_asked(s, asked.len(), reply.len()) {
        return refusal.number();
    }
    let given = brick::receive(s, brick, image, message_of(asked), block, old, out);
    put_given(given, reply)
}

// The same at a brick with the images of all stripes in one row.
#[unsafe(no_mangle)]
pub extern "C" fn volume_receive(
    n: usize,
    m: usize,
    size: usize,
    capacity: usize,
    stripes: usize,
    brick: usize,
    images: &mut [u8],
    asked: &[u64],
    block: &[u8],
    old: &[u8],
    out: &mut [u8],
    reply: &mut [u64],
) -> u32
    ensures { receipt_with result images.new out.new reply.new
        ≡ row_received_at (settings_with n m size capacity stripes) brick asked.now block.now old.now
        images.old out.old reply.old }
{
    let s = Settings {
        n,
        m,
        size,
        capacity,
        stripes,
    };
    if let Err(refusal) = check_asked(s, asked.len(), reply.len()) {
        return refusal.number();
    }
    let given = volume::receive(s, brick, images, message_of(asked), block, old, out);
    put_given(given, reply)
}

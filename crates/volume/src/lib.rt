// A volume over many stripes (document 02, E1): where a client block lies, and a brick with the images of all its stripes, lent in one row.
#![tactic(auto)]

ghost use Rattle.std.specs.Prelude.{◌≡◌, ◌<◌, length};
ghost use Rattle.settings.specs.Ranges.{SettingsRange};
ghost use Rattle.settings.specs.Refusal.{refusal_in};
ghost use Rattle.image.specs.Brick.{fresh_brick};
ghost use Rattle.image.specs.Image.{image_of};
ghost use Rattle.byte_lists.specs.Lists.{stacked};
ghost use Rattle.brick.specs.Receive.{outcome_with, given_in};
ghost use Rattle.volume.specs.ClientPlaces.{settings_with, place_of, placed_in, place_with, place_given};
ghost use Rattle.volume.specs.Rows.{row_size, row_lending_refusal, fresh_row_after, row_outcome};

use brick::check_front;
use image_block::BLOCK_BYTES;
use message::{Message, Reply};
use settings::{Refusal, Settings};

// The stripe and the data block of a client block. Refused: 1 a setting, 13 a block that the volume does not have.
#[tactic(auto, unfolding(crate::specs::ClientPlaces::place_of, crate::specs::ClientPlaces::place_refusal, crate::specs::ClientPlaces::client_refusal, crate::specs::ClientPlaces::client_blocks, crate::specs::ClientPlaces::stripe_of, crate::specs::ClientPlaces::data_block_of, settings::specs::Refusal::first_refusal, settings::specs::Ranges::settings_refusal), using(settings::proofs::Laws::RangeLaws::settings_passed))]
pub fn client_place(s: Settings, block: usize) -> Result<(usize, usize), Refusal>
    ensures { placed_in result ≡ place_of s block }
{
    s.check()?;
    if s.stripes * s.m <= block {
        return Err(Refusal::BadStripe);
    }
    let stripe = block % s.stripes;
    let data = block / s.stripes;
    Ok((stripe, data))
}

// The stripe and the data block, in a buffer of two.
const PLACE_LENGTH: usize = 2;

// The same into a buffer of two numbers; from C: `volume_c`. Refused: 1 a setting, 2 a buffer of another length, 13 a block that the volume does not
// have.
#[tactic(auto, unfolding(crate::specs::ClientPlaces::place_given, crate::specs::ClientPlaces::buffer_refusal, crate::specs::ClientPlaces::placed_number, crate::specs::ClientPlaces::placed_buffer, settings::specs::Refusal::first_refusal, settings::specs::Ranges::settings_refusal))]
pub fn volume_place(
    n: usize,
    m: usize,
    size: usize,
    capacity: usize,
    stripes: usize,
    block: usize,
    place: &mut [usize],
) -> Result<(), Refusal>
    ensures { place_with (refusal_in result) place.new ≡ place_given (settings_with n m size capacity stripes) block place.old }
{
    let s = Settings {
        n,
        m,
        size,
        capacity,
        stripes,
    };
    s.check()?;
    if place.len() != PLACE_LENGTH {
        return Err(Refusal::BadLength);
    }
    let (stripe, data) = client_place(s, block)?;
    place.copy_from_slice(&[stripe, data]);
    Ok(())
}

// A row of images for a fresh brick, refused with 1 a setting, 2 the row's length, 3 the brick.
#[tactic(auto, unfolding(crate::specs::Rows::row_lending_refusal, crate::specs::Rows::row_size, image::specs::Image::image_size, settings::specs::Refusal::first_refusal, settings::specs::Ranges::settings_refusal), using(settings::proofs::Laws::RangeLaws::settings_passed))]
fn check_row(s: Settings, brick: usize, len: usize) -> Result<(), Refusal>
    ensures { refusal_in result ≡ row_lending_refusal s brick len }
{
    s.check()?;
    if len != s.stripes * (BLOCK_BYTES * (s.capacity + 1)) {
        return Err(Refusal::BadLength);
    }
    if s.n <= brick {
        return Err(Refusal::BadNumber);
    }
    Ok(())
}

// A fresh image for each stripe.
fn fill_row(s: Settings, brick: usize, images: &mut [u8])
    requires settings_range { SettingsRange s }
    requires brick_lt_n { brick < s.n }
    requires images_len { length images.old ≡ row_size s }
    ensures { images.new ≡ stacked s.stripes (λ _. image_of s brick (fresh_brick s)) }
{
    let room = BLOCK_BYTES * (s.capacity + 1);
    for stripe in 0..s.stripes {
        let at = stripe * room;
        let end = at + room;
        let _ = image_write::write_fresh(s, brick, &mut images[at..end]);
    }
}

// Writes a fresh brick into a lent row: an image for each stripe. Refused: 1 a setting, 2 the row's length, 3 the brick.
pub fn write_fresh(s: Settings, brick: usize, images: &mut [u8]) -> Result<(), Refusal>
    ensures value { refusal_in result ≡ row_lending_refusal s brick (length images.old) }
    ensures images_after { images.new ≡ fresh_row_after s brick images.old }
{
    check_row(s, brick, images.len())?;
    fill_row(s, brick, images);
    Ok(())
}

// One message at a brick of a volume: the image of the message's stripe is opened and changed in place, and no other is looked at.
// old: the old block that goes with Modify. Refused: 1 a setting, 2 a length, 3 the brick, 13 the stripe, 14 a data block; then of that image
// 5 and 6; then 10 the message.
pub fn receive(
    s: Settings,
    brick: usize,
    images: &mut [u8],
    msg: Message,
    block: &[u8],
    old: &[u8],
    out: &mut [u8],
) -> Result<Option<Reply>, Refusal>
    ensures { outcome_with (given_in result) images.new out.new
        ≡ row_outcome s brick images.old msg block.now old.now out.old }
{
    s.check()?;
    check_front(
        s,
        s.stripes,
        brick,
        images.len(),
        msg,
        block.len(),
        old.len(),
        out.len(),
    )?;
    let room = BLOCK_BYTES * (s.capacity + 1);
    let at = msg.stripe * room;
    let end = at + room;
    brick::receive(s, brick, &mut images[at..end], msg, block, old, out)
}

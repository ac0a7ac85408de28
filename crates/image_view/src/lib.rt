// The view of a saved brick (document 01, "The saved brick": "a record holding a reference to the lent image, giving the count and the entry at a place").
// The functions over the struct are thin: each takes it apart or makes it, and calls a covered function on the slice and plain values.
#![tactic(auto)]

ghost use Rattle.std.specs.Prelude.{◌≡◌, ℕ};
ghost use Rattle.image.specs.Parse.{parse, open_refusal};
ghost use Rattle.image_view.specs.View.{count_of, counted_given, counted_number, found_at, found_given, found_in, found_of, view_in, view_of};

use byte_lists::read8;
use image::{Entry, Holding, is_mark, open};
use image_block::{BLOCK_BYTES, ENTRY_TIME};
use settings::{Refusal, Settings};

// A lent image, and how many entries it has, or its refusal. The fields are private: only `open_view` makes a view, of a checked image.
#[derive(Clone, Copy)]
pub struct View<'a> {
    image: &'a [u8],
    counted: Result<usize, Refusal>,
}

// The work of opening: the image is checked, and its entries are counted.
#[tactic(auto, using(crate::proofs::Laws::ViewLaws::counted_refused, crate::proofs::Laws::ViewLaws::counted_there))]
fn count_in(s: Settings, brick: usize, image: &[u8]) -> Result<usize, Refusal>
    ensures { counted_given result ≡ count_of (parse s brick image.now) }
{
    let opening = open(s, brick, image);
    let Ok(opened) = opening else {
        return Err(opening.unwrap_err());
    };
    Ok(opened.head.count)
}

// The work of a lookup: the entry at a place of an image that has `count` of them.
fn entry_at(image: &[u8], count: usize, place: usize) -> Result<Entry, Refusal>
    ensures { found_given result ≡ found_at image.now count place }
{
    if image.len() / BLOCK_BYTES <= count {
        return Err(Refusal::BadLength);
    }
    if count <= place {
        return Err(Refusal::BadNumber);
    }
    let at = BLOCK_BYTES * (place + 1);
    let t = &image[at..at + BLOCK_BYTES];
    let time = read8(t, ENTRY_TIME);
    let holding = if is_mark(t) {
        Holding::Same
    } else {
        Holding::Held(place + 1)
    };
    Ok(Entry { time, holding })
}

// Opens a lent image as a view. Its count and its entries are those of the brick that the image holds; of a refused image both give the
// refusal: 1, 2, 3, 5 or 6, as `image::open`.
pub fn open_view<'a>(s: Settings, brick: usize, image: &'a [u8]) -> View<'a>
    ensures view { view_in result ≡ view_of s brick image.entry }
    ensures entries { (place : ℕ) → found_in (view_in result) place ≡ found_of (parse s brick image.now) place }
    ensures number { counted_number (counted_given result.counted) ≡ open_refusal s brick image.now }
{
    let counted = count_in(s, brick, image);
    View { image, counted }
}

// How many entries the view has, or why its image was refused.
pub fn count<'a>(v: View<'a>) -> Result<usize, Refusal>
    ensures { result ≡ v.entry.counted }
{
    v.counted
}

// The entry at a place of the view, or 3 for a place not below the count, or why its image was refused.
#[tactic(auto, unfolding(crate::specs::View::found_by))]
pub fn entry<'a>(v: View<'a>, place: usize) -> Result<Entry, Refusal>
    ensures { found_given result ≡ found_in (view_in v.entry) place }
{
    let count = v.counted?;
    entry_at(v.image, count, place)
}

// The entry at a place of a saved brick. Its parameters are plain, so whoever calls it needs no walk.
pub fn look(s: Settings, brick: usize, image: &[u8], place: usize) -> Result<Entry, Refusal>
    ensures { found_given result ≡ found_of (parse s brick image.now) place }
{
    entry(open_view(s, brick, image), place)
}

// One message at one brick (document 01, "What a brick does"), at its image of one stripe.
#![tactic(auto)]

ghost use Rattle.std.specs.Prelude.{◌≡◌, length, ◌≤◌, ◌<◌, Ok};
ghost use Rattle.image.specs.Parse.{Opens, brick_in};
ghost use Rattle.brick.specs.Receive.{front_refusal, outcome_with, given_in, accepted, outcome};
ghost use Rattle.message.specs.Kinds.{modify_kind};
ghost use Rattle.settings.specs.Ranges.{max_stripes};
ghost use Rattle.settings.specs.Refusal.{refusal_in};
ghost use Rattle.brick_log.specs.Workers.{LogReady, Ahead};

use brick_answer::{comparison_of, number_of};
use brick_log::{Log, Plan, Saved, give};
use image::open;
use image_block::BLOCK_BYTES;
use message::{Message, Reply};
use settings::{Refusal, Settings};

// The answer to a message that is not refused, none for silence; and what the message changes.
fn act(
    saved: Saved,
    image: &mut [u8],
    plan: Plan,
    msg: Message,
    block: &[u8],
    old: &[u8],
    out: &mut [u8],
) -> Option<Reply>
    requires log_ready { LogReady saved.s saved.brick image.old saved.k }
    requires ahead { Ahead saved.brick (brick_in saved.s image.old) saved.k msg plan }
    requires block_len { (length block.now ≡ saved.s.size) × (length old.now ≡ saved.s.size) × (length out.old ≡ saved.s.size) }
    requires block_lt_m { msg.kind ≡ modify_kind → msg.block < saved.s.m }
    ensures { outcome_with (given_in (Ok result)) image.new out.new
        ≡ accepted saved.s saved.brick msg block.now old.now image.old out.old (Opens (brick_in saved.s image.old)) }
{
    match plan {
        Plan::Remove(removal) => {
            saved.remove(image, removal);
            None
        }
        Plan::Nothing => None,
        Plan::Answer { place, found } => {
            give(image, saved.s.size, place, out);
            let k = saved.k;
            let said = comparison_of(saved.s.capacity, k.count, k.newest, k.promise, msg);
            saved.change(image, msg, said, block, old);
            Some(Reply {
                kind: msg.kind,
                brick: saved.brick,
                stripe: msg.stripe,
                time: msg.time,
                round: msg.round,
                yes: said.is_none(),
                found,
                held: place.is_some(),
                comparison: number_of(said),
            })
        }
    }
}

// What is tested before an image is looked at, refused with 1 a setting, 2 a length, 3 the brick, 13 the stripe, 14 a data block. images: how
// many are lent, so many bytes in all; block, old and out are lengths.
#[tactic(auto, unfolding(crate::specs::Receive::front_refusal, crate::specs::Receive::beside_right, image::specs::Image::image_size, settings::specs::Refusal::first_refusal, settings::specs::Ranges::settings_refusal, settings::specs::Ranges::stripe_refusal, message::specs::Messages::message_block_refusal, settings::specs::Ranges::data_block_refusal), using(settings::proofs::Laws::RangeLaws::settings_passed))]
pub fn check_front(
    s: Settings,
    images: usize,
    brick: usize,
    lent: usize,
    msg: Message,
    block: usize,
    old: usize,
    out: usize,
) -> Result<(), Refusal>
    requires { images ≤ max_stripes }
    ensures { refusal_in result ≡ front_refusal s images brick lent msg (record { block = block; old = old; out = out }) }
{
    s.check()?;
    if lent != images * (BLOCK_BYTES * (s.capacity + 1)) {
        return Err(Refusal::BadLength);
    }
    if block != s.size || old != s.size || out != s.size {
        return Err(Refusal::BadLength);
    }
    if s.n <= brick {
        return Err(Refusal::BadNumber);
    }
    settings::check_stripe(s.stripes, msg.stripe)?;
    msg.check_block(s.m)
}

// One message at the brick's image of the message's stripe, with its block and, for Modify, the old block: the reply, with its block in the
// lent buffer, or none for silence, or one refusal; the image is changed in place. A brick of a volume: `volume::receive`.
pub fn receive(
    s: Settings,
    brick: usize,
    image: &mut [u8],
    msg: Message,
    block: &[u8],
    old: &[u8],
    out: &mut [u8],
) -> Result<Option<Reply>, Refusal>
    ensures { outcome_with (given_in result) image.new out.new
        ≡ outcome s brick image.old msg block.now old.now out.old }
{
    check_front(
        s,
        1,
        brick,
        image.len(),
        msg,
        block.len(),
        old.len(),
        out.len(),
    )?;
    let opening = open(s, brick, image);
    let Ok(opened) = opening else {
        return Err(opening.unwrap_err());
    };
    msg.check(s.n, s.m)?;
    // stays: tried, the borrow checker does not take an array field straight into a literal
    let entries = opened.log;
    let log = Log {
        entries,
        count: opened.head.count,
    };
    let k = log.known(opened.head.promise);
    let plan = log.plan_for(k, msg, brick);
    Ok(act(Saved { s, brick, k }, image, plan, msg, block, old, out))
}

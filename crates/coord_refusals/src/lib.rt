// What a coordinator's routines refuse, before anything changes (document 01, "Refused by number, lowest first").
// inner: call `coordinator::take_reply`
#![tactic(auto)]

ghost use Rattle.std.specs.Prelude.{◌≡◌, IfOk, [], ◌∷◌, ◌*◌, ◌<◌, leb};
ghost use Rattle.coord_refusals.specs.Checks.{stripe_checks, write_checks, read_checks, lengths_right, stray_checks};
ghost use Rattle.coord_refusals.specs.Checks.{take_refusal, crash_refusal};
ghost use Rattle.coord_refusals.specs.Checks.{block_checks, read_block_checks, write_block_checks};
ghost use Rattle.coord_record.specs.Sound.{sound_record};
ghost use Rattle.settings.specs.Ranges.{code_refusal, stripe_count_refusal};
ghost use Rattle.settings.specs.Refusal.{first_refusal, refusal_in, number_of_refusal, refuse_unless, bad_number, bad_record};
ghost use Rattle.settings.specs.Times.{last_coordinator};

use coord_record::{Coordinator, Geometry};
use message::Reply;
use settings::{Code, Refusal};

// The refusal given, unless a test holds.
fn refuse_unless(holds: bool, refusal: Refusal) -> Result<(), Refusal>
    ensures { refusal_in result ≡ refuse_unless holds (number_of_refusal refusal) }
{
    if holds { Ok(()) } else { Err(refusal) }
}

// The code of a volume; 1 where n, m, the block size or the stripe count is outside its range.
#[tactic(auto, using(crate::proofs::Laws::RefusedLaws::checks))]
fn check_volume(volume: Geometry) -> Result<Code, Refusal>
    ensures value { refusal_in result ≡ first_refusal (code_refusal volume.n volume.m volume.size ∷ stripe_count_refusal volume.stripes ∷ []) }
    ensures code { IfOk result (λ (code : Code). (code.n ≡ volume.n) × (code.m ≡ volume.m) × (code.size ≡ volume.size)) }
{
    let code = Code::new(volume.n, volume.m, volume.size)?;
    settings::check_stripe_count(volume.stripes)?;
    Ok(code)
}

// 3 for a coordinator number above 15.
fn check_number(c: &Coordinator) -> Result<(), Refusal>
    ensures { refusal_in result ≡ refuse_unless (leb c.now.clock.coordinator last_coordinator) bad_number }
{
    refuse_unless(
        c.clock.coordinator <= settings::LAST_COORDINATOR,
        Refusal::BadNumber,
    )
}

// 6 for a record that is not sound.
fn check_sound(code: Code, stripes: usize, c: &Coordinator) -> Result<(), Refusal>
    ensures { refusal_in result ≡ refuse_unless (sound_record code.n code.m code.size stripes c.now) bad_record }
{
    refuse_unless(
        c.sound(Geometry {
            n: code.n,
            m: code.m,
            size: code.size,
            stripes,
        }),
        Refusal::BadRecord,
    )
}

// 3 for a coordinator number above 15, 13 for a stripe that the volume does not have, 6 for a record that is not sound.
#[tactic(auto, unfolding(crate::specs::Checks::stripe_checks), using(crate::proofs::Laws::RefusedLaws::checks))]
fn check_stripe(
    code: Code,
    stripes: usize,
    c: &Coordinator,
    stripe_number: usize,
) -> Result<(), Refusal>
    ensures { refusal_in result ≡ first_refusal (stripe_checks code.n code.m code.size stripes c.now stripe_number []) }
{
    check_number(c)?;
    settings::check_stripe(stripes, stripe_number)?;
    check_sound(code, stripes, c)
}

// 3 for a coordinator number above 15, 13 for a stripe that the volume does not have, 14 for a data block that the stripe does not have,
// 6 for a record that is not sound.
#[tactic(auto, unfolding(crate::specs::Checks::block_checks), using(crate::proofs::Laws::RefusedLaws::checks))]
fn check_block(
    code: Code,
    stripes: usize,
    c: &Coordinator,
    stripe_number: usize,
    block: usize,
) -> Result<(), Refusal>
    ensures { refusal_in result ≡ first_refusal (block_checks code.n code.m code.size stripes c.now stripe_number block []) }
{
    check_number(c)?;
    settings::check_stripe(stripes, stripe_number)?;
    settings::check_data_block(code.m, block)?;
    check_sound(code, stripes, c)
}

// What refuses a write before its time is drawn: bytes and stripe are lengths.
#[tactic(auto, unfolding(crate::specs::Checks::write_checks), using(crate::proofs::Laws::RefusedLaws::checks))]
pub fn check_write(
    volume: Geometry,
    c: &Coordinator,
    stripe_number: usize,
    bytes: usize,
    stripe: usize,
) -> Result<(), Refusal>
    ensures { refusal_in result ≡ first_refusal (write_checks volume.n volume.m volume.size volume.stripes c.now stripe_number bytes stripe []) }
{
    let code = check_volume(volume)?;
    let data = code.m * code.size;
    refuse_unless(bytes == data && stripe == data, Refusal::BadLength)?;
    check_stripe(code, volume.stripes, c, stripe_number)
}

// What refuses a read before its time is drawn; else the volume's code.
#[tactic(auto, unfolding(crate::specs::Checks::read_checks), using(crate::proofs::Laws::RefusedLaws::checks))]
pub fn check_read(
    volume: Geometry,
    c: &Coordinator,
    stripe_number: usize,
    first: usize,
) -> Result<Code, Refusal>
    ensures value { refusal_in result ≡ first_refusal (read_checks volume.n volume.m volume.size volume.stripes c.now stripe_number first []) }
    ensures code { IfOk result (λ (code : Code). (code.n ≡ volume.n) × (code.m ≡ volume.m) × (code.size ≡ volume.size)) }
{
    let code = check_volume(volume)?;
    refuse_unless(first < code.n, Refusal::BadNumber)?;
    check_stripe(code, volume.stripes, c, stripe_number)?;
    Ok(code)
}

// What refuses a read of one block before its time is drawn; else the volume's code.
#[tactic(auto, unfolding(crate::specs::Checks::read_block_checks), using(crate::proofs::Laws::RefusedLaws::checks))]
pub fn check_read_block(
    volume: Geometry,
    c: &Coordinator,
    stripe_number: usize,
    block: usize,
) -> Result<Code, Refusal>
    ensures value { refusal_in result ≡ first_refusal (read_block_checks volume.n volume.m volume.size volume.stripes c.now stripe_number block []) }
    ensures code { IfOk result (λ (code : Code). (code.n ≡ volume.n) × (code.m ≡ volume.m) × (code.size ≡ volume.size)) }
{
    let code = check_volume(volume)?;
    check_block(code, volume.stripes, c, stripe_number, block)?;
    Ok(code)
}

// What refuses a write of one block before its time is drawn: bytes and stripe are lengths.
#[tactic(auto, unfolding(crate::specs::Checks::write_block_checks), using(crate::proofs::Laws::RefusedLaws::checks))]
pub fn check_write_block(
    volume: Geometry,
    c: &Coordinator,
    stripe_number: usize,
    block: usize,
    bytes: usize,
    stripe: usize,
) -> Result<(), Refusal>
    ensures { refusal_in result ≡ first_refusal (write_block_checks volume.n volume.m volume.size volume.stripes c.now stripe_number block bytes stripe []) }
{
    let code = check_volume(volume)?;
    refuse_unless(
        bytes == code.size && stripe == code.m * code.size,
        Refusal::BadLength,
    )?;
    check_block(code, volume.stripes, c, stripe_number, block)
}

// Whether the lent buffers of a reply have the lengths that the code requires.
#[tactic(auto, unfolding(crate::specs::Checks::lengths_right), using(std::proofs::lemmas::Bool::Decides::nat_tests))]
fn lengths_right(
    code: Code,
    held: bool,
    block: usize,
    blocks: usize,
    stripe: usize,
    coded: usize,
) -> bool
    ensures { result ≡ lengths_right code.n code.m code.size held block blocks stripe coded }
{
    let all = code.n * code.size;
    blocks == all && stripe == code.m * code.size && coded == all && (!held || block == code.size)
}

// What refuses a reply; else the volume's code: block, blocks, stripe and coded are lengths.
#[tactic(auto, unfolding(crate::specs::Checks::take_refusal), using(crate::proofs::Laws::RefusedLaws::checks))]
pub fn check_take(
    volume: Geometry,
    c: &Coordinator,
    reply: Reply,
    block: usize,
    blocks: usize,
    stripe: usize,
    coded: usize,
) -> Result<Code, Refusal>
    ensures value { refusal_in result ≡ take_refusal volume.n volume.m volume.size volume.stripes c.now reply block blocks stripe coded }
    ensures code { IfOk result (λ (code : Code). (code.n ≡ volume.n) × (code.m ≡ volume.m) × (code.size ≡ volume.size)) }
{
    let code = check_volume(volume)?;
    refuse_unless(
        lengths_right(code, reply.held, block, blocks, stripe, coded),
        Refusal::BadLength,
    )?;
    refuse_unless(reply.brick < code.n, Refusal::BadNumber)?;
    check_stray(code, volume.stripes, c, reply)?;
    Ok(code)
}

// What refuses a reply of a brick below n.
#[tactic(auto, unfolding(crate::specs::Checks::stray_checks, crate::specs::Checks::stripe_checks), using(crate::proofs::Laws::RefusedLaws::stray))]
fn check_stray(code: Code, stripes: usize, c: &Coordinator, reply: Reply) -> Result<(), Refusal>
    requires { reply.brick < code.n }
    ensures { refusal_in result ≡ first_refusal (stray_checks code.n code.m code.size stripes c.now reply) }
{
    check_stripe(code, stripes, c, reply.stripe)?;
    reply.check(code.n)?;
    refuse_unless(
        coord_decide::reply_answers(code.n, code.m, c.op, c.tally, reply),
        Refusal::StrayReply,
    )
}

// What refuses a crash.
#[tactic(auto, unfolding(crate::specs::Checks::crash_refusal, crate::specs::Checks::record_checks), using(crate::proofs::Laws::RefusedLaws::checks))]
pub fn check_crash(volume: Geometry, c: &Coordinator) -> Result<(), Refusal>
    ensures { refusal_in result ≡ crash_refusal volume.n volume.m volume.size volume.stripes c.now }
{
    let code = check_volume(volume)?;
    check_number(c)?;
    check_sound(code, volume.stripes, c)
}

// The bench's set between two lines (document 01, "The bench"): a record by value, with the bricks' images and what the coordinators keep
// in lent buffers.
// inner: call `bench_player::play_line`
#![tactic(auto)]

ghost use Rattle.std.specs.Prelude.{◌≡◌, true, [], ◌+◌, ◌*◌, ◌≤◌, ◌<◌, length, get_or, take, drop};
ghost use Rattle.bench_state.specs.State.{idle_at, world_of};
ghost use Rattle.bench_state.specs.Workers.{fresh_bench, with_coordinator, with_sent, with_up, kept_with, bench_refusal};
ghost use Rattle.bench_state.specs.Workers.{Small};
ghost use Rattle.bench_state.specs.Workers.{Begun};
ghost use Rattle.register.specs.Runs.{fresh_set};
ghost use Rattle.settings.specs.Ranges.{in_range};
ghost use Rattle.settings.specs.Refusal.{refusal_in};
ghost use Rattle.bench_limits.specs.Limits.{bench_bricks, bench_coordinators, stripe_room, kept_room, kept_length, images_length};
ghost use Rattle.coord_record.specs.Records.{geometry_of};

use bench_limits::{
    BENCH_STRIPES, BRICKS, CAPACITY, COORDINATORS, IMAGE_ROOM, KEPT_ROOM, SIZE, STRIPE_ROOM, UP,
};
use coord_record::{Coordinator, Geometry};
use settings::{Clock, Refusal, Settings};

// stays: `Lining.stage_of` reads n = 0 as no set, and `State.up_of` the flags as numbers.
// settings: n is 0 while no set is accepted. up: UP for a brick that is up. sent: how many messages were sent.
#[derive(Clone, Copy)]
pub struct Bench {
    pub settings: Settings,
    pub up: [u8; BRICKS],
    pub coordinators: [Coordinator; COORDINATORS],
    pub sent: usize,
}

// Refused with 1 where a setting is outside its range or the bench's limits.
#[tactic(auto, unfolding(crate::specs::Workers::bench_refusal, crate::specs::State::bench_range, crate::specs::State::bench_limits, settings::specs::Ranges::settings_refusal))]
pub fn check_bench(s: Settings) -> Result<(), Refusal>
    ensures { refusal_in result ≡ bench_refusal s }
{
    s.check()?;
    if BRICKS < s.n {
        return Err(Refusal::BadSetting);
    }
    if SIZE < s.size {
        return Err(Refusal::BadSetting);
    }
    if CAPACITY < s.capacity {
        return Err(Refusal::BadSetting);
    }
    if s.stripes != BENCH_STRIPES {
        return Err(Refusal::BadSetting);
    }
    Ok(())
}

// The settings as a coordinator knows them.
#[tactic(auto, unfolding(coord_record::specs::Records::geometry_of))]
pub fn geometry_of(s: Settings) -> Geometry
    ensures { result ≡ geometry_of s }
{
    Geometry {
        n: s.n,
        m: s.m,
        size: s.size,
        stripes: s.stripes,
    }
}

// An idle coordinator of a set that drew no time yet.
#[tactic(auto, unfolding(crate::specs::State::idle_at))]
fn new_coordinator(s: Settings, c: u64) -> Coordinator
    ensures { result ≡ idle_at s c }
{
    let clock = Clock {
        coordinator: c,
        last: 0,
    };
    coord_record::idle_with(geometry_of(s), clock)
}

// The record of a set that begins.
#[tactic(auto, unfolding(crate::specs::Workers::fresh_bench))]
pub fn new_bench(s: Settings) -> Bench
    ensures { result ≡ fresh_bench s }
{
    Bench {
        settings: s,
        up: [UP; BRICKS],
        coordinators: [
            new_coordinator(s, 0),
            new_coordinator(s, 1),
            new_coordinator(s, 2),
            new_coordinator(s, 3),
        ],
        sent: 0,
    }
}

// The record with another coordinator and number of messages.
#[tactic(auto, unfolding(crate::specs::Workers::with_coordinator))]
pub fn with_coordinator(b: Bench, c: usize, next: Coordinator, sent: usize) -> Bench
    requires { c < bench_coordinators }
    ensures value { result ≡ with_coordinator b c next sent }
    ensures coordinators_len { length b.coordinators ≡ bench_coordinators }
{
    let mut coordinators = b.coordinators;
    coordinators[c] = next;
    Bench {
        coordinators,
        sent,
        ..b
    }
}

// The record with another number of messages.
#[tactic(auto, unfolding(crate::specs::Workers::with_sent))]
pub fn with_sent(b: Bench, sent: usize) -> Bench
    ensures { result ≡ with_sent b sent }
{
    Bench { sent, ..b }
}

// The record with a brick UP or DOWN.
#[tactic(auto, unfolding(crate::specs::Workers::with_up))]
pub fn with_up(b: Bench, brick: usize, flag: u8) -> Bench
    requires { brick < bench_bricks }
    ensures value { result ≡ with_up b brick flag }
    ensures up_len { length b.up ≡ bench_bricks }
{
    let mut up = b.up;
    up[brick] = flag;
    Bench { up, ..b }
}

// A coordinator's record.
pub fn coordinator_at(b: Bench, c: usize) -> Coordinator
    requires { c < bench_coordinators }
    ensures value { result ≡ get_or b.coordinators c (idle_at b.settings c) }
    ensures coordinators_len { length b.coordinators ≡ bench_coordinators }
{
    b.coordinators[c]
}

// What a coordinator keeps, copied out.
pub fn fetch(c: usize, kept: &[u8], blocks: &mut [u8], stripe: &mut [u8])
    requires c_lt_bench_coordinators { (c < bench_coordinators) × (length kept.now ≡ kept_length) }
    requires blocks_len_bound { (length blocks.old ≤ stripe_room) × (length stripe.old ≤ stripe_room) }
    ensures blocks_after { blocks.new ≡ take (length blocks.old) (drop (c * kept_room) kept.now) }
    ensures stripe_after { stripe.new ≡ take (length stripe.old) (drop (c * kept_room + stripe_room) kept.now) }
{
    let at = c * KEPT_ROOM;
    let from = at + STRIPE_ROOM;
    blocks.copy_from_slice(&kept[at..at + blocks.len()]);
    stripe.copy_from_slice(&kept[from..from + stripe.len()]);
}

// What a coordinator keeps, stored.
#[tactic(auto, unfolding(crate::specs::Workers::kept_with), using(byte_lists::proofs::Laws::PutLaws::put_mid_lem))]
pub fn keep(c: usize, blocks: &[u8], stripe: &[u8], kept: &mut [u8])
    requires c_lt_bench_coordinators { (c < bench_coordinators) × (length kept.old ≡ kept_length) }
    requires blocks_len_bound { (length blocks.now ≤ stripe_room) × (length stripe.now ≤ stripe_room) }
    ensures { kept.new ≡ kept_with c blocks.now stripe.now kept.old }
{
    let at = c * KEPT_ROOM;
    let from = at + STRIPE_ROOM;
    kept[at..at + blocks.len()].copy_from_slice(blocks);
    kept[from..from + stripe.len()].copy_from_slice(stripe);
}

// A fresh row for each brick, which is one image.
#[tactic(auto, using(crate::proofs::Laws::FillLaws::begun_stored))]
fn fresh_images(s: Settings, images: &mut [u8])
    requires s_value { (in_range s ≡ true) × Small s }
    requires images_len { length images.old ≡ images_length }
    ensures { Begun s images.new s.n }
{
    let image = image_block::BLOCK_BYTES * (s.capacity + 1);
    for b in 0..s.n {
        let at = b * IMAGE_ROOM;
        let _ = volume::write_fresh(s, b, &mut images[at..at + image]);
    }
}

// A set begins.
#[tactic(auto, using(crate::proofs::Laws::FillLaws::set_begun))]
pub fn set_up(s: Settings, images: &mut [u8], kept: &mut [u8]) -> Bench
    requires s_value { (in_range s ≡ true) × Small s }
    requires images_len { (length images.old ≡ images_length) × (length kept.old ≡ kept_length) }
    ensures { (result ≡ fresh_bench s) × (world_of result images.new kept.new [] ≡ fresh_set s) }
{
    fresh_images(s, images);
    kept.fill(0);
    new_bench(s)
}

// The parts below the code at a C boundary of numbers and slices, for the tests that compare them with other code.
// inner: call `erasure::stripe_encode`
#![tactic(auto)]

ghost use Rattle.std.specs.Prelude.{◌≡◌};
ghost use Rattle.gf256.specs.Product.{product, inverse, quotient};
ghost use Rattle.test_field.specs.FieldBoundary.{power_or_zero, IsLog, settings_number, draw_at};
ghost use Rattle.settings.specs.Ranges.{quorum};
ghost use Rattle.settings.specs.Times.{valid_time};

use settings::{Clock, Refusal, Settings};

// What a draw writes: the time and the next last count.
const DRAWN_NUMBERS: usize = 2;

// The product of two bytes.
#[unsafe(no_mangle)]
pub extern "C" fn probe_mul(a: u8, b: u8) -> u8
    ensures { result ≡ product a b }
{
    gf256::mul(a, b)
}

// The inverse of a byte.
#[unsafe(no_mangle)]
pub extern "C" fn probe_inv(a: u8) -> u8
    ensures { result ≡ inverse a }
{
    gf256::inv(a)
}

// The quotient of two bytes.
#[unsafe(no_mangle)]
pub extern "C" fn probe_div(a: u8, b: u8) -> u8
    ensures { result ≡ quotient a b }
{
    gf256::div(a, b)
}

// 2 to the k by the table, 0 past it.
#[tactic(auto, unfolding(crate::specs::FieldBoundary::power_or_zero))]
#[unsafe(no_mangle)]
pub extern "C" fn probe_power(k: usize) -> u8
    ensures { result ≡ power_or_zero k }
{
    let table = gf256::powers();
    if k < gf256::POWER_COUNT {
        return table[k];
    }
    0
}

// The logarithm of a byte by the table, 0 for 0.
#[unsafe(no_mangle)]
pub extern "C" fn probe_log(a: u8) -> u8
    ensures { IsLog a result }
{
    let table = gf256::logs();
    if a == 0 {
        return 0;
    }
    table[a as usize]
}

// The bricks of a quorum.
#[unsafe(no_mangle)]
pub extern "C" fn probe_quorum(n: usize, m: usize) -> usize
    ensures { result ≡ quorum n m }
{
    settings::quorum_of(n, m)
}

// Whether a number is a valid time.
#[unsafe(no_mangle)]
pub extern "C" fn probe_time(t: u64) -> bool
    ensures { result ≡ valid_time t }
{
    settings::is_time(t)
}

// The refusal of five settings.
#[tactic(auto, unfolding(crate::specs::FieldBoundary::settings_number))]
#[unsafe(no_mangle)]
pub extern "C" fn probe_settings(
    n: usize,
    m: usize,
    size: usize,
    capacity: usize,
    stripes: usize,
) -> u32
    ensures { result ≡ settings_number n m size capacity stripes }
{
    let s = Settings {
        n,
        m,
        size,
        capacity,
        stripes,
    };
    settings::number_of(s.check())
}

// A clock's draw: the time and the next clock's last count go into a buffer of two numbers.
#[tactic(auto, using(crate::proofs::Laws::FieldBoundaryLaws::draw_ways), unfolding(crate::specs::FieldBoundary::clock_of))]
#[unsafe(no_mangle)]
pub extern "C" fn probe_draw(coordinator: u64, last: u64, reading: u64, out: &mut [u64]) -> u32
    ensures { record { number = result; drawn = out.new } ≡ draw_at coordinator last reading out.old }
{
    if out.len() != DRAWN_NUMBERS {
        return Refusal::BadLength.number();
    }
    let drawn = Clock { coordinator, last }.draw(reading);
    let Ok((time, next)) = drawn else {
        return settings::number_of(drawn);
    };
    out[0] = time;
    out[1] = next.last;
    settings::PASSED
}

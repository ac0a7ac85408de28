// The erasure code (document 01, "Settings and the code"): encode and decode; under their C names: `erasure_c`.
#![tactic(auto)]

ghost use Rattle.std.specs.Prelude.{◌≡◌, cond, ◌*◌, length};
ghost use Rattle.erasure.specs.Code.{coded_of, decoded_of, agree};
ghost use Rattle.erasure.specs.Refusals.{all_below, all_different, number_refusal, set_refusal, encode_refusal, list_refusal, decode_refusal};
ghost use Rattle.erasure.specs.Refusals.{encoded_buffer, decoded_buffer, DecodedByPolynomials};
ghost use Rattle.erasure.specs.Recoding.{weight_at, with_change, recoded_block};
ghost use Rattle.erasure.specs.Workers.{Encodes, Decodes, RecodeRange, OneLength};
ghost use Rattle.interpolate.specs.Values.{PointSet};
ghost use Rattle.settings.specs.Refusal.{refusal_in};

use gf256::{Multiples, Tables};
use settings::{Refusal, check_code};

// Whether every brick of a list is below n.
pub fn all_below(bricks: &[u8], n: usize) -> bool
    ensures { result ≡ all_below bricks.now n }
{
    bricks.iter().all(|&brick| (brick as usize) < n)
}

// Whether no brick of a list stands twice.
pub fn all_different(bricks: &[u8]) -> bool
    ensures { result ≡ all_different bricks.now }
{
    for i in 0..bricks.len() {
        if bricks[i + 1..].contains(&bricks[i]) {
            return false;
        }
    }
    true
}

// Refused with 3 where a brick of a list is not below n.
fn check_numbers(n: usize, bricks: &[u8]) -> Result<(), Refusal>
    ensures { refusal_in result ≡ number_refusal n bricks.now }
{
    if !all_below(bricks, n) {
        return Err(Refusal::BadNumber);
    }
    Ok(())
}

// Refused with 4 where a list has fewer than m bricks or a repeat.
fn check_set(m: usize, bricks: &[u8]) -> Result<(), Refusal>
    ensures { refusal_in result ≡ set_refusal m bricks.now }
{
    if bricks.len() < m {
        return Err(Refusal::BadBrickSet);
    }
    if !all_different(bricks) {
        return Err(Refusal::BadBrickSet);
    }
    Ok(())
}

// The refusal of encoding: stripe and coded are the buffers' lengths.
#[tactic(auto, using(crate::proofs::Laws::CodeRefusalLaws::encode_ways))]
pub fn check_encode(
    n: usize,
    m: usize,
    size: usize,
    stripe: usize,
    coded: usize,
) -> Result<(), Refusal>
    ensures { refusal_in result ≡ encode_refusal n m size stripe coded }
{
    check_code(n, m, size)?;
    if stripe != m * size {
        return Err(Refusal::BadLength);
    }
    if coded != n * size {
        return Err(Refusal::BadLength);
    }
    Ok(())
}

// The refusal of a decoding by its settings, list and lengths: blocks and stripe are the buffers' lengths.
#[tactic(auto, using(crate::proofs::Laws::CodeRefusalLaws::list_ways))]
fn check_list(
    n: usize,
    m: usize,
    size: usize,
    bricks: &[u8],
    blocks: usize,
    stripe: usize,
) -> Result<(), Refusal>
    ensures { refusal_in result ≡ list_refusal n m size bricks.now blocks stripe }
{
    check_code(n, m, size)?;
    if blocks / size != bricks.len() {
        return Err(Refusal::BadLength);
    }
    if blocks % size != 0 {
        return Err(Refusal::BadLength);
    }
    if stripe != m * size {
        return Err(Refusal::BadLength);
    }
    check_numbers(n, bricks)?;
    check_set(m, bricks)
}

// The n coded blocks of m data blocks.
#[tactic(auto, using(crate::proofs::Laws::PassedLaws::first_points_ways), unfolding(crate::specs::Code::coded_of))]
pub fn encode_into(n: usize, m: usize, size: usize, stripe: &[u8], coded: &mut [u8])
    requires { Encodes n m size (length stripe.now) (length coded.old) }
    ensures { coded.new ≡ coded_of n m size stripe.now }
{
    let points = [0u8, 1, 2, 3, 4, 5, 6, 7, 8, 9, 10, 11, 12, 13, 14, 15];
    interpolate::interpolate(&points[..m], size, stripe, n, coded)
}

// The m data blocks from the blocks of m different bricks, in the bricks' order.
#[tactic(auto, using(crate::proofs::Laws::OnePolynomialLaws::decoded_all))]
pub fn decode_into(m: usize, size: usize, bricks: &[u8], blocks: &[u8], stripe: &mut [u8])
    requires point_set { PointSet bricks.now }
    requires bricks_len { length bricks.now ≡ m }
    requires blocks_len { (length blocks.now ≡ m * size) × (length stripe.old ≡ m * size) }
    ensures { stripe.new ≡ decoded_of m size bricks.now blocks.now }
{
    interpolate::interpolate(bricks, size, blocks, m, stripe)
}

// Whether the blocks of m or more different bricks agree; if so, the m data blocks, else nothing is written.
#[tactic(auto, using(crate::proofs::Laws::OnePolynomialLaws::cut_ways))]
pub fn decode_checked(
    m: usize,
    size: usize,
    bricks: &[u8],
    blocks: &[u8],
    stripe: &mut [u8],
) -> bool
    requires { Decodes m size bricks.now (length blocks.now) (length stripe.old) }
    ensures value { result ≡ agree m size bricks.now blocks.now }
    ensures stripe_after { stripe.new ≡ cond result (decoded_of m size bricks.now blocks.now) stripe.old }
{
    let own = m * size;
    interpolate::interpolate_checked(
        &bricks[..m],
        size,
        &blocks[..own],
        &bricks[m..],
        &blocks[own..],
        m,
        stripe,
    )
}

// The weight of data block j at a brick: Lagrange's, a factor for each other data block.
#[tactic(auto, using(crate::proofs::Laws::WeightFactorLaws::weight_steps))]
fn weight_at(tables: &Tables, n: usize, m: usize, brick: usize, j: usize) -> u8
    requires { RecodeRange n m brick j }
    ensures { result ≡ weight_at n m brick j }
{
    let mut w = 1;
    for k in 0..m {
        if k != j {
            let below = tables.inv(j as u8 ^ k as u8);
            let factor = tables.mul(brick as u8 ^ k as u8, below);
            w = tables.mul(w, factor);
        }
    }
    w
}

// A block plus a byte times the sum of two others.
#[tactic(auto, using(byte_lists::proofs::Laws::TabulateLaws::filled_more), unfolding(gf256::specs::Product::plus))]
fn add_change(w: Multiples, own: &[u8], old: &[u8], new: &[u8], out: &mut [u8])
    requires { OneLength (length own.now) (length old.now) (length new.now) (length out.old) }
    ensures { out.new ≡ with_change w.w own.now old.now new.now }
{
    for i in 0..out.len() {
        out[i] = own[i] ^ w.times(old[i] ^ new[i]);
    }
}

// A brick's own block recoded after data block j changed from old to new.
#[tactic(auto, using(crate::proofs::Laws::RecodingLaws::recoded_by))]
pub fn recode_into(
    n: usize,
    m: usize,
    brick: usize,
    j: usize,
    own: &[u8],
    old: &[u8],
    new: &[u8],
    out: &mut [u8],
)
    requires recode_range { RecodeRange n m brick j }
    requires one_length { OneLength (length own.now) (length old.now) (length new.now) (length out.old) }
    ensures { out.new ≡ recoded_block n m brick j own.now old.now new.now }
{
    let tables = Tables::new();
    let w = weight_at(&tables, n, m, brick, j);
    add_change(tables.multiples(w), own, old, new, out)
}

// Encodes, or gives the refusal and leaves the buffer.
#[tactic(auto, using(crate::proofs::Laws::PassedLaws::encoding_ways), unfolding(crate::specs::Refusals::encoded_buffer))]
pub fn stripe_encode(
    n: usize,
    m: usize,
    size: usize,
    data: &[u8],
    coded: &mut [u8],
) -> Result<(), Refusal>
    ensures value { refusal_in result ≡ encode_refusal n m size (length «data».now) (length coded.old) }
    ensures coded_after { coded.new ≡ encoded_buffer n m size «data».now coded.old }
{
    check_encode(n, m, size, data.len(), coded.len())?;
    encode_into(n, m, size, data, coded);
    Ok(())
}

// Decodes from the blocks of m or more bricks, or gives the refusal and leaves the buffer.
pub fn stripe_decode(
    n: usize,
    m: usize,
    size: usize,
    bricks: &[u8],
    blocks: &[u8],
    data: &mut [u8],
) -> Result<(), Refusal>
    ensures value { refusal_in result ≡ decode_refusal n m size bricks.now blocks.now (length «data».old) }
    ensures data_after { «data».new ≡ decoded_buffer n m size bricks.now blocks.now «data».old }
    ensures decoded_by_polynomials { DecodedByPolynomials n m size bricks.now blocks.now «data».old (refusal_in result) «data».new }
{
    check_list(n, m, size, bricks, blocks.len(), data.len())?;
    if !decode_checked(m, size, bricks, blocks, data) {
        return Err(Refusal::BlocksDisagree);
    }
    Ok(())
}

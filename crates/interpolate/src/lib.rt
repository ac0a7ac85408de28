// Blocks as values of polynomials over bytes (document 01, "Settings and the code"): what encoding and decoding both are.
// inner: call `erasure::stripe_encode`
// Every product and inverse of a weight, and every doubling of it, is `gf256`'s by its two tables, which the inner functions take as lent.
#![tactic(auto)]

ghost use Rattle.std.specs.Prelude.{cond, ◌≡◌, ℕ, ◌+◌, ◌*◌, ◌<◌, ◌≤◌, length, get_or, MatchOption};
ghost use Rattle.gf256.specs.Product.{inverse};
ghost use Rattle.settings.specs.Ranges.{max_bricks, max_size};
ghost use Rattle.interpolate.specs.Workers.{scaled, numerator, Differences, Shares, Weights, PointsReady, Apart};
ghost use Rattle.interpolate.specs.Values.{PointSet, block_at, blocks_at, blocks_fit};

use gf256::{Multiples, Tables};
use settings::{MAX_BRICKS, MAX_SIZE};

// A block times a byte added to another.
#[tactic(auto, using(crate::proofs::Laws::WeightRowLaws::scaled_steps), unfolding(gf256::specs::Product::plus, crate::specs::Workers::scaled))]
fn add_multiples(w: Multiples, from: &[u8], to: &mut [u8])
    requires { length from.now ≡ length to.old }
    ensures { to.new ≡ scaled w.w from.now to.old }
{
    for i in 0..to.len() {
        to[i] ^= w.times(from[i]);
    }
}

// Each point's product of differences, times its difference to point k, but for point k itself.
fn times_differences(tables: &Tables, points: &[u8], k: usize, products: &mut [u8])
    requires k_in_bounds { (k < length points.now) × (length points.now ≤ length products.old) }
    requires differences { Differences points.now k products.old }
    ensures { Differences points.now (k + 1) products.new }
{
    let c = points[k];
    for i in 0..points.len() {
        if i != k {
            products[i] = tables.mul(products[i], points[i] ^ c);
        }
    }
}

// Bytes, each replaced by its inverse.
fn invert(tables: &Tables, bytes: &mut [u8])
    ensures { (i : ℕ) → i < length bytes.old → get_or bytes.new i 0 ≡ inverse (get_or bytes.old i 0) }
{
    for i in 0..bytes.len() {
        bytes[i] = tables.inv(bytes[i]);
    }
}

// The share of each point b in its weights: the inverse of the product of b - c over all points c but b. The slice is lent with ones.
fn shares_of(tables: &Tables, points: &[u8], shares: &mut [u8])
    requires points_in_bounds { length points.now ≤ length shares.old }
    requires differences { Differences points.now 0 shares.old }
    ensures { Shares points.now shares.new }
{
    let count = points.len();
    for k in 0..count {
        times_differences(tables, points, k, shares);
    }
    invert(tables, &mut shares[..count])
}

// The blocks known at some points, with the share of each point and the tables: what a block elsewhere is worked out from.
#[derive(Drop)]
struct Known<'a> {
    tables: &'a Tables,
    points: &'a [u8],
    shares: &'a [u8],
    size: usize,
    blocks: &'a [u8],
    ghost ready: { PointsReady points.now shares.now },
    ghost blocks_len: { length blocks.now ≡ length points.now * size },
    ghost blocks_bytes: { (k : ℕ) → get_or blocks.now k 0 < 256 },
}

impl<'a> Known<'a> {
    // Where x stands among the points.
    fn place_of(&self, x: u8) -> Option<usize>
        ensures { MatchOption result
            ((k : ℕ) → k < length self.now.points.now → get_or self.now.points.now k 0 ≡ x → ⊥)
            (λ k. (k < length self.now.points.now) × (get_or self.now.points.now k 0 ≡ x)) }
    {
        self.points.iter().position(|&b| b == x)
    }

    // The product of x - b over all points b.
    #[tactic(auto, using(crate::proofs::Laws::WeightLaws::numerator_none, crate::proofs::Laws::WeightLaws::numerator_more))]
    fn numerator(&self, x: u8) -> u8
        ensures { result ≡ numerator self.now.points.now x (length self.now.points.now) }
    {
        let mut all = 1;
        for &b in self.points {
            all = self.tables.mul(all, x ^ b);
        }
        all
    }

    // The weights of all points at x, where x is none of them: the numerator at x, by x's own difference, times the point's share.
    fn weights_at(&self, x: u8, weights: &mut [u8])
        requires by_index { (k : ℕ) → k < length self.now.points.now → get_or self.now.points.now k 0 ≡ x → ⊥ }
        requires points_in_bounds { length self.now.points.now ≤ length weights.old }
        ensures { Weights self.now.points.now x weights.new }
    {
        let top = self.numerator(x);
        for i in 0..self.points.len() {
            let own = self.tables.inv(x ^ self.points[i]);
            let share = self.tables.mul(own, self.shares[i]);
            weights[i] = self.tables.mul(top, share);
        }
    }

    // The block at x, where x is none of the points: the sum of their blocks, each times its weight.
    #[tactic(auto, using(byte_lists::proofs::Laws::TabulateLaws::zeros_are, crate::proofs::Laws::WeightRowLaws::row_steps))]
    fn combine(&self, x: u8, out: &mut [u8])
        requires by_index { (k : ℕ) → k < length self.now.points.now → get_or self.now.points.now k 0 ≡ x → ⊥ }
        requires out_len { length out.old ≡ self.now.size }
        ensures { out.new ≡ block_at self.now.points.now self.now.size self.now.blocks.now x }
    {
        let mut weights = [0u8; MAX_BRICKS];
        self.weights_at(x, &mut weights);
        byte_lists::clear(out);
        for i in 0..self.points.len() {
            let at = i * self.size;
            let block = &self.blocks[at..at + self.size];
            add_multiples(self.tables.multiples(weights[i]), block, out);
        }
    }

    // The block at x: a given point's own block, or else the combination of all.
    fn row(&self, x: u8, out: &mut [u8])
        requires { length out.old ≡ self.now.size }
        ensures { out.new ≡ block_at self.now.points.now self.now.size self.now.blocks.now x }
    {
        let Some(k) = self.place_of(x) else {
            self.combine(x, out);
            return;
        };
        let at = k * self.size;
        byte_lists::copy(&self.blocks[at..at + self.size], out)
    }

    // The blocks at points 0 to count - 1.
    fn rows(&self, count: usize, out: &mut [u8])
        requires { (length out.old ≡ count * self.now.size) × (count ≤ max_bricks) }
        ensures { out.new ≡ blocks_at self.now.points.now self.now.size self.now.blocks.now count }
    {
        for x in 0..count {
            let at = x * self.size;
            self.row(x as u8, &mut out[at..at + self.size]);
        }
    }

    // Whether the blocks given at further points, none of them among the points, are those there; without such points nothing is computed.
    #[tactic(auto, using(crate::proofs::Laws::FurtherBlockLaws::fitting))]
    fn all_fit(&self, further: &[u8], given: &[u8]) -> bool
        requires apart { Apart self.now.points.now further.now }
        requires size_high { self.now.size ≤ max_size }
        requires given_len { length given.now ≡ length further.now * self.now.size }
        ensures { result ≡ blocks_fit self.now.points.now self.now.size self.now.blocks.now further.now given.now }
    {
        if further.is_empty() {
            return true;
        }
        let mut buffer = [0u8; MAX_SIZE];
        let made = &mut buffer[..self.size];
        for i in 0..further.len() {
            self.combine(further[i], made);
            let at = i * self.size;
            if !byte_lists::same_bytes(&given[at..at + self.size], made) {
                return false;
            }
        }
        true
    }
}

// The blocks at points 0 to count - 1, from the blocks at the given points: at most as many as bricks, all different.
#[tactic(auto, using(crate::proofs::Laws::WeightLaws::differences_none))]
pub fn interpolate(points: &[u8], size: usize, blocks: &[u8], count: usize, out: &mut [u8])
    requires point_set { PointSet points.now }
    requires blocks_len { length blocks.now ≡ length points.now * size }
    requires out_len { (length out.old ≡ count * size) × (count ≤ max_bricks) }
    ensures { out.new ≡ blocks_at points.now size blocks.now count }
{
    let tables = Tables::new();
    let mut shares = [1u8; MAX_BRICKS];
    shares_of(&tables, points, &mut shares);
    let known = Known {
        tables: &tables,
        points,
        shares: &shares,
        size,
        blocks,
    };
    known.rows(count, out)
}

// The same as `interpolate`, if the blocks given at further points, none of them among the points, fit: whether they do. If not, nothing is
// written.
// stays: beside `interpolate`, which asks for no highest size (its `requires` may not ask more), and whose callers have no further points.
#[tactic(auto, using(crate::proofs::Laws::WeightLaws::differences_none))]
pub fn interpolate_checked(
    points: &[u8],
    size: usize,
    blocks: &[u8],
    further: &[u8],
    given: &[u8],
    count: usize,
    out: &mut [u8],
) -> bool
    requires point_set { PointSet points.now }
    requires apart { Apart points.now further.now }
    requires blocks_len { (length blocks.now ≡ length points.now * size) × (size ≤ max_size) }
    requires given_len { length given.now ≡ length further.now * size }
    requires out_len { (length out.old ≡ count * size) × (count ≤ max_bricks) }
    ensures value { result ≡ blocks_fit points.now size blocks.now further.now given.now }
    ensures out_after { out.new ≡ cond result (blocks_at points.now size blocks.now count) out.old }
{
    let tables = Tables::new();
    let mut shares = [1u8; MAX_BRICKS];
    shares_of(&tables, points, &mut shares);
    let known = Known {
        tables: &tables,
        points,
        shares: &shares,
        size,
        blocks,
    };
    if !known.all_fit(further, given) {
        return false;
    }
    known.rows(count, out);
    true
}

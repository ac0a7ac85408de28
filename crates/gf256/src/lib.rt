// The field of 256 elements with polynomial hexadecimal 11D (document 01, "Settings and the code"), by two constant tables.
// inner: call `erasure::stripe_encode`
#![tactic(auto)]

ghost use Rattle.std.specs.Prelude.{◌≡◌, ◌≤◌, get_or};
ghost use Rattle.gf256.specs.Product.{product, inverse, quotient};
ghost use Rattle.gf256.specs.Tables.{IsPowers, IsLogs, doublings};
ghost use Rattle.gf256.specs.LogSums.{log_sum, max_log_sum, folded, product_in, sum_bits};

// The bytes, and the powers of 2 among them: all but 0.
pub const BYTE_COUNT: usize = 256;

pub const POWER_COUNT: usize = 255;

// The bits of a byte.
const BITS: usize = 8;

// The same for a sum of logarithms, which 16 bits hold: 2 to the 255 is 1 again.
const CYCLE: u16 = POWER_COUNT as u16;

// Entry k is 2 to the k.
const POWERS: [u8; POWER_COUNT] = [
    1, 2, 4, 8, 16, 32, 64, 128, 29, 58, 116, 232, 205, 135, 19, 38, 76, 152, 45, 90, 180, 117,
    234, 201, 143, 3, 6, 12, 24, 48, 96, 192, 157, 39, 78, 156, 37, 74, 148, 53, 106, 212, 181,
    119, 238, 193, 159, 35, 70, 140, 5, 10, 20, 40, 80, 160, 93, 186, 105, 210, 185, 111, 222, 161,
    95, 190, 97, 194, 153, 47, 94, 188, 101, 202, 137, 15, 30, 60, 120, 240, 253, 231, 211, 187,
    107, 214, 177, 127, 254, 225, 223, 163, 91, 182, 113, 226, 217, 175, 67, 134, 17, 34, 68, 136,
    13, 26, 52, 104, 208, 189, 103, 206, 129, 31, 62, 124, 248, 237, 199, 147, 59, 118, 236, 197,
    151, 51, 102, 204, 133, 23, 46, 92, 184, 109, 218, 169, 79, 158, 33, 66, 132, 21, 42, 84, 168,
    77, 154, 41, 82, 164, 85, 170, 73, 146, 57, 114, 228, 213, 183, 115, 230, 209, 191, 99, 198,
    145, 63, 126, 252, 229, 215, 179, 123, 246, 241, 255, 227, 219, 171, 75, 150, 49, 98, 196, 149,
    55, 110, 220, 165, 87, 174, 65, 130, 25, 50, 100, 200, 141, 7, 14, 28, 56, 112, 224, 221, 167,
    83, 166, 81, 162, 89, 178, 121, 242, 249, 239, 195, 155, 43, 86, 172, 69, 138, 9, 18, 36, 72,
    144, 61, 122, 244, 245, 247, 243, 251, 235, 203, 139, 11, 22, 44, 88, 176, 125, 250, 233, 207,
    131, 27, 54, 108, 216, 173, 71, 142,
];

// Entry a is the logarithm of a; that of 0 is not read.
const LOGS: [u8; BYTE_COUNT] = [
    0, 0, 1, 25, // the logarithm of 3
    2, 50, 26, 198, 3, 223, 51, 238, 27, 104, 199, 75, 4, 100, 224, 14, 52, 141, 239, 129, 28, 193,
    105, 248, 200, 8, 76, 113, 5, 138, 101, 47, 225, 36, 15, 33, 53, 147, 142, 218, 240, 18, 130,
    69, 29, 181, 194, 125, 106, 39, 249, 185, 201, 154, 9, 120, 77, 228, 114, 166, 6, 191, 139, 98,
    102, 221, 48, 253, 226, 152, 37, 179, 16, 145, 34, 136, 54, 208, 148, 206, 143, 150, 219, 189,
    241, 210, 19, 92, 131, 56, 70, 64, 30, 66, 182, 163, 195, 72, 126, 110, 107, 58, 40, 84, 250,
    133, 186, 61, 202, 94, 155, 159, 10, 21, 121, 43, 78, 212, 229, 172, 115, 243, 167, 87, 7, 112,
    192, 247, 140, 128, 99, 13, 103, 74, 222, 237, 49, 197, 254, 24, 227, 165, 153, 119, 38, 184,
    180, 124, 17, 68, 146, 217, 35, 32, 137, 46, 55, 63, 209, 91, 149, 188, 207, 205, 144, 135,
    151, 178, 220, 252, 190, 97, 242, 86, 211, 171, 20, 42, 93, 158, 132, 60, 57, 83, 71, 109, 65,
    162, 31, 45, 67, 216, 183, 123, 164, 118, 196, 23, 73, 236, 127, 12, 111, 246, 108, 161, 59,
    82, 41, 157, 85, 170, 251, 96, 134, 177, 187, 204, 62, 90, 203, 89, 95, 176, 156, 169, 160, 81,
    11, 245, 22, 235, 122, 117, 44, 215, 79, 174, 213, 233, 230, 231, 173, 232, 116, 214, 244, 234,
    168, 80, 88, 175,
];

// The table of powers.
pub fn powers() -> [u8; POWER_COUNT]
    ensures { IsPowers result }
{
    POWERS
}

// The table of logarithms.
pub fn logs() -> [u8; BYTE_COUNT]
    ensures { IsLogs result }
{
    LOGS
}

// The sum of two bytes' logarithms, in 16 bits.
#[tactic(auto, using(crate::proofs::Laws::LookupLaws::log_below), unfolding(crate::specs::LogSums::log_sum))]
fn log_sum(logs: &[u8; BYTE_COUNT], a: u8, b: u8) -> u16
    requires { IsLogs logs.now }
    ensures value { result ≡ log_sum logs.now a b }
    ensures upper_bound { result ≤ max_log_sum }
{
    logs[a as usize] as u16 + logs[b as usize] as u16
}

// The power at a sum of two logarithms: from 255 on that at 255 less.
#[tactic(auto, unfolding(crate::specs::LogSums::folded))]
fn power_at(powers: &[u8; POWER_COUNT], sum: u16) -> u8
    requires { sum ≤ max_log_sum }
    ensures { result ≡ get_or powers.now (folded sum) 0 }
{
    if sum < CYCLE {
        return powers[sum as usize];
    }
    powers[sum as usize - POWER_COUNT]
}

// The product by lent tables: two loads, a sum in 16 bits, a load.
#[tactic(auto, using(crate::proofs::Laws::LookupLaws::looked_up))]
pub fn mul_by(powers: &[u8; POWER_COUNT], logs: &[u8; BYTE_COUNT], a: u8, b: u8) -> u8
    requires powers { IsPowers powers.now }
    requires logs { IsLogs logs.now }
    ensures value { result ≡ product a b }
    ensures value_2 { result ≡ product_in sum_bits powers.now logs.now a b }
{
    if a == 0 {
        return 0;
    }
    if b == 0 {
        return 0;
    }
    power_at(powers, log_sum(logs, a, b))
}

// The inverse by lent tables; 0 for 0.
#[tactic(auto, using(crate::proofs::Laws::LookupLaws::of_zero, crate::proofs::Laws::LookupLaws::log_below, crate::proofs::Laws::LookupLaws::inverse_at))]
pub fn inv_by(powers: &[u8; POWER_COUNT], logs: &[u8; BYTE_COUNT], a: u8) -> u8
    requires powers { IsPowers powers.now }
    requires logs { IsLogs logs.now }
    ensures { result ≡ inverse a }
{
    if a == 0 {
        return 0;
    }
    power_at(powers, CYCLE - logs[a as usize] as u16)
}

// The two tables, to be lent to many products: a constant array is built anew in each function that names it.
#[derive(Drop)]
pub struct Tables {
    powers: [u8; POWER_COUNT],
    logs: [u8; BYTE_COUNT],
    ghost powers_right: { IsPowers powers },
    ghost logs_right: { IsLogs logs },
}

impl Tables {
    pub fn new() -> Self
        ensures powers { IsPowers result.powers }
        ensures logs { IsLogs result.logs }
    {
        Tables {
            powers: powers(),
            logs: logs(),
        }
    }

    // The product.
    pub fn mul(&self, a: u8, b: u8) -> u8
        ensures value { result ≡ product a b }
        ensures value_2 { result ≡ product_in sum_bits self.now.powers self.now.logs a b }
    {
        mul_by(&self.powers, &self.logs, a, b)
    }

    // The inverse; 0 for 0.
    pub fn inv(&self, a: u8) -> u8
        ensures { result ≡ inverse a }
    {
        inv_by(&self.powers, &self.logs, a)
    }

    // A byte with its doublings.
    pub fn multiples(&self, w: u8) -> Multiples
        ensures { result.w ≡ w }
    {
        Multiples {
            w,
            doubles: [
                w,
                self.mul(w, 2),
                self.mul(w, 4),
                self.mul(w, 8),
                self.mul(w, 16),
                self.mul(w, 32),
                self.mul(w, 64),
                self.mul(w, 128),
            ],
        }
    }
}

// A byte and its eight products with 1, 2, 4 to 128, each the double of the one before: for its products with many bytes. The byte stands
// beside the eight since a struct of just eight bytes is packed into one register, and taken apart again for each block: that costs 4 in 100.
#[derive(Clone, Copy)]
pub struct Multiples {
    pub w: u8,
    doubles: [u8; BITS],
    ghost doubled: { doubles ≡ doublings 8 w },
}

impl Multiples {
    // The product of the byte with another, by the bits of that.
    #[tactic(auto, using(crate::proofs::Laws::BitLaws::bit_fits, crate::proofs::Laws::BitLaws::by_doublings), unfolding(crate::specs::Product::plus))]
    pub fn times(self, x: u8) -> u8
        ensures { result ≡ product self.w x }
    {
        x % 2 * self.doubles[0]
            ^ (x / 2 % 2 * self.doubles[1]
                ^ (x / 4 % 2 * self.doubles[2]
                    ^ (x / 8 % 2 * self.doubles[3]
                        ^ (x / 16 % 2 * self.doubles[4]
                            ^ (x / 32 % 2 * self.doubles[5]
                                ^ (x / 64 % 2 * self.doubles[6]
                                    ^ x / 128 % 2 * self.doubles[7]))))))
    }
}

// The product of two bytes.
pub fn mul(a: u8, b: u8) -> u8
    ensures { result ≡ product a b }
{
    let p = powers();
    let l = logs();
    mul_by(&p, &l, a, b)
}

// The inverse of a byte; 0 for 0.
pub fn inv(a: u8) -> u8
    ensures { result ≡ inverse a }
{
    let p = powers();
    let l = logs();
    inv_by(&p, &l, a)
}

// The quotient of two bytes; by 0 it is 0.
#[tactic(auto, unfolding(crate::specs::Product::quotient))]
pub fn div(a: u8, b: u8) -> u8
    ensures { result ≡ quotient a b }
{
    let p = powers();
    let l = logs();
    let c = inv_by(&p, &l, b);
    mul_by(&p, &l, a, c)
}

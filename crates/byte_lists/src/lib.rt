// Bytes and lists: a byte widened, little-endian numbers (document 01, "The saved brick"), bytes cleared, copied, compared and stored.
// inner: call `image::open`
#![tactic(auto)]

ghost use Rattle.std.specs.Prelude.{◌≡◌, ◌+◌, ◌≤◌, ◌<◌, length, take, drop};
ghost use Rattle.byte_lists.specs.Little.{number, byte_of};
ghost use Rattle.byte_lists.specs.Lists.{put, zeros, same};

// A byte as a number of 64 bits.
pub fn wide(x: u8) -> u64
    ensures { (result ≡ x) × (result < 256) }
{
    u64::from(x)
}

// The number in the two bytes from `at`.
#[tactic(auto, using(crate::proofs::Laws::LittleLaws::number_2))]
pub fn read2(b: &[u8], at: usize) -> u64
    requires { at + 2 ≤ length b.now }
    ensures { (result ≡ number (take 2 (drop at b.now))) × (result < 65536) }
{
    u64::from(u16::from_le_bytes([b[at], b[at + 1]]))
}

// The number in the eight bytes from `at`.
#[tactic(auto, using(crate::proofs::Laws::LittleLaws::number_8))]
pub fn read8(b: &[u8], at: usize) -> u64
    requires { at + 8 ≤ length b.now }
    ensures { result ≡ number (take 8 (drop at b.now)) }
{
    let bytes: [u8; 8] = b[at..at + 8].try_into().unwrap();
    u64::from_le_bytes(bytes)
}

// The lowest byte of a number.
// stays: a remainder and a cast, as `n.to_le_bytes()[0]` is no plainer. No caller is left here; outside callers may have it.
#[tactic(auto, unfolding(crate::specs::Little::byte_of))]
pub fn byte(n: u64) -> u8
    ensures { result ≡ byte_of n }
{
    (n % 256) as u8
}

// A byte as an index.
pub fn wide_index(x: u8) -> usize
    ensures value { result ≡ x }
    ensures upper_bound { result < 256 }
{
    usize::from(x)
}

// Every byte 0.
#[tactic(auto, unfolding(crate::specs::Lists::zeros))]
pub fn clear(out: &mut [u8])
    ensures { out.new ≡ zeros (length out.old) }
{
    out.fill(0);
}

// Bytes copied into others of the same number.
// stays: a loop and not `copy_from_slice`, for the C interface: that one calls memmove, and include/erasure.h says that nothing but memset is called.
pub fn copy(from: &[u8], to: &mut [u8])
    requires { length from.now ≡ length to.old }
    ensures { to.new ≡ from.now }
{
    for i in 0..to.len() {
        to[i] = from[i];
    }
}

// Whether bytes are the same as others of the same number.
#[tactic(auto, using(crate::proofs::Laws::SameLaws::same_is_pointwise))]
pub fn same_bytes(a: &[u8], b: &[u8]) -> bool
    requires { length a.now ≡ length b.now }
    ensures { result ≡ same a.now b.now }
{
    a == b
}

// Bytes stored in a list from a place on.
#[tactic(auto, using(crate::proofs::Laws::PutLaws::put_mid_lem))]
pub fn store(l: &mut [u8], at: usize, b: &[u8])
    requires { at + length b.now ≤ length l.old }
    ensures { l.new ≡ put at b.now l.old }
{
    l[at..at + b.len()].copy_from_slice(b);
}

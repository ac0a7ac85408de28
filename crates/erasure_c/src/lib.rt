// The erasure code for C callers (include/erasure.h): the two routines of `erasure` under their C names, with its promises.
#![tactic(auto)]

ghost use Rattle.std.specs.Prelude.{◌≡◌, length};
ghost use Rattle.erasure.specs.Refusals.{encode_refusal, decode_refusal, encoded_buffer, decoded_buffer, DecodedByPolynomials};

// Encodes, or gives the number of the refusal and leaves the buffer.
#[unsafe(no_mangle)]
pub extern "C" fn stripe_encode(
    n: usize,
    m: usize,
    size: usize,
    data: &[u8],
    coded: &mut [u8],
) -> u32
    ensures value { result ≡ encode_refusal n m size (length «data».now) (length coded.old) }
    ensures coded_after { coded.new ≡ encoded_buffer n m size «data».now coded.old }
{
    settings::number_of(erasure::stripe_encode(n, m, size, data, coded))
}

// Decodes from the blocks of m or more bricks, or gives the number of the refusal and leaves the buffer.
#[unsafe(no_mangle)]
pub extern "C" fn stripe_decode(
    n: usize,
    m: usize,
    size: usize,
    bricks: &[u8],
    blocks: &[u8],
    data: &mut [u8],
) -> u32
    ensures value { result ≡ decode_refusal n m size bricks.now blocks.now (length «data».old) }
    ensures data_after { «data».new ≡ decoded_buffer n m size bricks.now blocks.now «data».old }
    ensures decoded_by_polynomials { DecodedByPolynomials n m size bricks.now blocks.now «data».old result «data».new }
{
    settings::number_of(erasure::stripe_decode(n, m, size, bricks, blocks, data))
}

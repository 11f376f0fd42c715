// Numbers in bytes, little-endian: each function reads what stands at the start of the bytes that it is given, and a byte past their end reads as 0.
ghost use Rattle.std.specs.Prelude.{◌≡◌, drop, take};
ghost use Rattle.question.specs.Bytes.{byte, le16, le32, le64, le_f64, ok_reading, reading_of};
ghost use Rattle.question.specs.Body.{first_of};

use float::bits::float_of;
use limits::reading::Reading;
use std::array;

// The bytes from a place on.
pub fn past(bytes: &[u8], at: usize) -> &[u8]
    ensures { result.now ≡ drop at bytes.now }
{
    bytes.get(at..).unwrap_or(&[])
}

// So many bytes from a place on, or as many as there are.
pub fn part(bytes: &[u8], at: usize, len: usize) -> &[u8]
    ensures { result.now ≡ take len (drop at bytes.now) }
{
    let rest = past(bytes, at);
    rest.get(..len).unwrap_or(rest)
}

// The byte at a place.
pub fn byte_at(bytes: &[u8], at: usize) -> u8
    ensures { result ≡ byte bytes.now at }
{
    bytes.get(at).copied().unwrap_or(0)
}

// (Functions, and no `From`: each reads the start of a longer slice. What `u16_of`, `u32_of` and `u64_of` have in common is `first`: std has no trait over
// `from_le_bytes`, and one of our own would need a law and an impl for each.)
// The first N bytes. (Not by `first_chunk`, which has no bytes to give past the end.)
fn first<const N: usize>(bytes: &[u8]) -> [u8; N]
    ensures { result ≡ first_of N 0 bytes.now }
{
    array::from_fn(|i| byte_at(bytes, i))
}

// Two bytes as a number.
#[tactic(auto, using(crate::proofs::Numbers::le16_first))]
pub(crate) fn u16_of(bytes: &[u8]) -> u16
    ensures { result ≡ le16 bytes.now }
{
    u16::from_le_bytes(first(bytes))
}

// Four bytes.
#[tactic(auto, using(crate::proofs::Numbers::le32_first))]
pub fn u32_of(bytes: &[u8]) -> u32
    ensures { result ≡ le32 bytes.now }
{
    u32::from_le_bytes(first(bytes))
}

// Eight bytes.
#[tactic(auto, using(crate::proofs::Numbers::le64_first))]
fn u64_of(bytes: &[u8]) -> u64
    ensures { result ≡ le64 bytes.now }
{
    u64::from_le_bytes(first(bytes))
}

// Eight bytes as an f64; every NaN pattern gives the NaN.
#[tactic(auto, unfolding(crate::specs::Bytes::le_f64))]
pub fn f64_of(bytes: &[u8]) -> f64
    ensures { result ≡ le_f64 bytes.now }
{
    float_of(u64_of(bytes))
}

// Whether the first nine bytes have a reading's form.
#[tactic(auto, unfolding(crate::specs::Bytes::ok_reading))]
pub(crate) fn ok_reading(bytes: &[u8]) -> bool
    ensures { result ≡ ok_reading bytes.now }
{
    match byte_at(bytes, 0) {
        1 => true,
        0 => u64_of(past(bytes, 1)) == 0,
        _ => false,
    }
}

// The reading that nine bytes hold.
#[tactic(auto, unfolding(crate::specs::Bytes::reading_of))]
pub fn reading_of(bytes: &[u8]) -> Reading
    ensures { result ≡ reading_of bytes.now }
{
    match byte_at(bytes, 0) {
        1 => Some(f64_of(past(bytes, 1))),
        _ => None,
    }
}

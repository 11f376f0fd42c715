// A question file: its header, its pairs and where the bodies of its events stand. Each function answers for every list of bytes.
ghost use Rattle.std.specs.Prelude.{◌≡◌, drop};
ghost use Rattle.question.specs.Bytes.{le32};
ghost use Rattle.question.specs.File.{event_count, air, ok_header, ok_pairs, body_at};

use crate::bytes::{part, past, u32_of};
use crate::types::Bandwidth;

// How many events the file has.
pub fn event_count(file: &[u8]) -> u32
    ensures { result ≡ event_count file.now }
{
    u32_of(file)
}

// The air's number. It stays a number, since a file may hold any: `Bandwidth::try_from` says whether it names an air.
pub fn air(file: &[u8]) -> u32
    ensures { result ≡ air file.now }
{
    u32_of(past(file, 4))
}

// Whether the file's size, air and event count are known.
#[tactic(auto, unfolding(crate::specs::File::ok_header))]
pub(crate) fn ok_header(file: &[u8]) -> bool
    ensures { result ≡ ok_header file.now }
{
    (8..=65536).contains(&file.len())
        && Bandwidth::try_from(air(file)).is_ok()
        && event_count(file) <= 1000
}

// A pair: where an event's body starts, and how long it is.
#[derive(Clone, Copy)]
struct Pair {
    offset: u32,
    length: u32,
}

// The pair at the start of the bytes.
fn pair_of(bytes: &[u8]) -> Pair
    ensures offset { result.offset ≡ le32 bytes.now }
    ensures length { result.length ≡ le32 (drop 4 bytes.now) }
{
    Pair {
        offset: u32_of(bytes),
        length: u32_of(past(bytes, 4)),
    }
}

// Whether the bodies follow the pairs and each other to the file's end.
#[tactic(auto, using(crate::proofs::Pairs::chain_past, crate::proofs::Pairs::chain_start, crate::proofs::Pairs::chain_off, crate::proofs::Pairs::chain_on, crate::proofs::Pairs::chain_end, crate::proofs::Pairs::pairs_lent, crate::proofs::Pairs::pairs_count, crate::proofs::Pairs::pair_offset, crate::proofs::Pairs::pair_length))]
pub(crate) fn ok_pairs(file: &[u8]) -> bool
    ensures { result ≡ ok_pairs file.now }
{
    let mut at = 8 + 8 * (event_count(file) as usize);
    let Some(pairs) = file.get(8..at) else {
        return false;
    };
    for bytes in pairs.as_chunks::<8>().0 {
        let pair = pair_of(bytes);
        if pair.offset as usize != at {
            return false;
        }
        at += pair.length as usize;
    }
    at == file.len()
}

// The body of the i-th event, from 0.
#[tactic(auto, unfolding(crate::specs::File::body_at, crate::specs::File::offset_at), using(crate::proofs::Pairs::length_from))]
pub fn body_at(file: &[u8], i: u32) -> &[u8]
    ensures { result.now ≡ body_at file.now i }
{
    let pair = pair_of(past(file, 8 + 8 * (i as usize)));
    part(file, pair.offset as usize, pair.length as usize)
}

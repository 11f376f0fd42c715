// An event's body: whether it has its kind's form, and what it holds. Each function answers for every list of bytes.
ghost use Rattle.std.specs.Prelude.{◌≡◌, slice_index, slice_index_or};
ghost use Rattle.ladder.specs.Lists.{every};
ghost use Rattle.limits.specs.Values.{ok_burst};
ghost use Rattle.question.specs.Body.{all_from, frame_count, ok_flags, frames_form, frame_of, frames_in, no_frame, echo_form, silence_form, snr_form, families_form, prices_form, burst_count, bursts_in, seed_form, ok_body, first_of};

use crate::bytes::{byte_at, f64_of, ok_reading, past, u16_of};
use crate::types::Kind;
use ladder::types::Rung;
use limits::values::ok_burst;
use rules::types::Frame;
use std::array;

// How many frames a body of frames has. (`burst_count` differs in two numbers: a function that takes them would be called by these two alone, and say less
// than the one line of each. So do `frame_at` and `burst_at`, `frames_of` and `bursts_of`, `ok_flags` and `ok_bursts`: what they share is std's walk.)
pub(crate) fn frame_count(body: &[u8]) -> usize
    ensures { result ≡ frame_count body.now }
{
    body.len().saturating_sub(10) / 12
}

// Whether each frame has known flags only.
fn ok_flags(body: &[u8]) -> bool
    ensures { result ≡ all_from (frame_count body.now) 0 (ok_flags body.now) }
{
    past(body, 10)
        .chunks_exact(12)
        .all(|frame| byte_at(frame, 1) < 8)
}

// Kind 1: a reading, whole frames, known flags.
#[tactic(auto, unfolding(crate::specs::Body::frames_form))]
fn frames_form(body: &[u8]) -> bool
    ensures { result ≡ frames_form body.now }
{
    body.len() >= 10 && (body.len() - 10) % 12 == 0 && ok_reading(past(body, 1)) && ok_flags(body)
}

// Kind 2. (The tests of kinds 2 and 4, and of 3 and 7, differ in the body's length. With that as a parameter, the four lengths would stand in
// `ok_body`, away from the rest of a kind's form, which is here.)
#[tactic(auto, unfolding(crate::specs::Body::echo_form))]
fn echo_form(body: &[u8]) -> bool
    ensures { result ≡ echo_form body.now }
{
    body.len() == 18 && ok_reading(past(body, 1))
}

// Kind 3.
fn silence_form(body: &[u8]) -> bool
    ensures { result ≡ silence_form body.now }
{
    body.len() == 5
}

// Kind 4.
#[tactic(auto, unfolding(crate::specs::Body::snr_form))]
fn snr_form(body: &[u8]) -> bool
    ensures { result ≡ snr_form body.now }
{
    body.len() == 10 && ok_reading(past(body, 1))
}

// Kind 5: two bytes, each 0 or 1.
#[tactic(auto, unfolding(crate::specs::Body::families_form))]
fn families_form(body: &[u8]) -> bool
    ensures { result ≡ families_form body.now }
{
    body.len() == 3 && byte_at(body, 1) <= 1 && byte_at(body, 2) <= 1
}

// Kind 6: three numbers, whole burst counts.
#[tactic(auto, unfolding(crate::specs::Body::prices_form))]
fn prices_form(body: &[u8]) -> bool
    ensures { result ≡ prices_form body.now }
{
    body.len() >= 25 && (body.len() - 25) % 2 == 0
}

// Kind 7.
fn seed_form(body: &[u8]) -> bool
    ensures { result ≡ seed_form body.now }
{
    body.len() == 9
}

// Whether a body has its kind's form.
#[tactic(auto, unfolding(crate::specs::Body::ok_body))]
pub(crate) fn ok_body(body: &[u8]) -> bool
    ensures { result ≡ ok_body body.now }
{
    match Kind::try_from(byte_at(body, 0)) {
        Ok(Kind::Frames) => frames_form(body),
        Ok(Kind::Echo) => echo_form(body),
        Ok(Kind::Silence) => silence_form(body),
        Ok(Kind::Snr) => snr_form(body),
        Ok(Kind::Families) => families_form(body),
        Ok(Kind::Prices) => prices_form(body),
        Ok(Kind::Seed) => seed_form(body),
        Err(_) => false,
    }
}

// The frame that stands at the start of the bytes. A function and no `From`: it reads the start of a longer slice, and a byte past the end as 0, which
// `Frame::from(bytes)` would not say.
#[tactic(auto, unfolding(crate::specs::Body::frame_of))]
fn frame_of(bytes: &[u8]) -> Frame
    ensures { result ≡ frame_of bytes.now }
{
    let flags = byte_at(bytes, 1);
    Frame {
        rung: Rung(u32::from(byte_at(bytes, 0))),
        detected: flags % 2 == 1,
        decoded: flags / 2 % 2 == 1,
        combined: flags / 4 % 2 == 1,
        capacity: u32::from(u16_of(past(bytes, 2))),
        air: f64_of(past(bytes, 4)),
    }
}

// What stands past the frames.
const NO_FRAME: Frame = Frame {
    rung: Rung(0),
    detected: false,
    decoded: false,
    combined: false,
    capacity: 0,
    air: 0.0,
};

// The i-th frame, from 0, or what stands past the last.
fn frame_at(body: &[u8], i: usize) -> Frame
    ensures { result ≡ slice_index_or (frames_in body.now) i no_frame }
{
    let (frames, _) = past(body, 10).as_chunks::<12>();
    frames.get(i).map_or(NO_FRAME, |frame| frame_of(frame))
}

// The first N frames of a body of frames, and past the last no frames. (Inlined, so that the array is made where it stays, and not copied there.)
#[inline(always)]
pub fn frames_of<const N: usize>(body: &[u8]) -> [Frame; N]
    ensures { result ≡ first_of N no_frame (frames_in body.now) }
{
    array::from_fn(|i| frame_at(body, i))
}

// How many burst counts a body of prices has.
pub(crate) fn burst_count(body: &[u8]) -> usize
    ensures { result ≡ burst_count body.now }
{
    body.len().saturating_sub(25) / 2
}

// Whether each burst count, however many there are, is within its limit.
pub(crate) fn ok_bursts(body: &[u8]) -> bool
    ensures { result ≡ every ok_burst (bursts_in body.now) }
{
    past(body, 25)
        .chunks_exact(2)
        .all(|count| ok_burst(u32::from(u16_of(count))))
}

// The i-th burst count, from 0, or 0 past the last.
fn burst_at(body: &[u8], i: usize) -> u32
    ensures { result ≡ slice_index (bursts_in body.now) i }
{
    let (counts, _) = past(body, 25).as_chunks::<2>();
    counts.get(i).map_or(0, |count| u32::from(u16_of(count)))
}

// The first 32 burst counts of a body of prices, and zeros past the last.
pub(crate) fn bursts_of(body: &[u8]) -> [u32; 32]
    ensures { result ≡ first_of 32 0 (bursts_in body.now) }
{
    array::from_fn(|i| burst_at(body, i))
}

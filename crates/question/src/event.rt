// An event: its body's call, made on a player. One small function a kind; each answers for every list of bytes.
ghost use Rattle.std.specs.Prelude.{◌≡◌, ◌≤◌, ◌&&◌, eqb, drop};
ghost use Rattle.limits.specs.Values.{ok_length, ok_burst};
ghost use Rattle.ladder.specs.Lists.{every};
ghost use Rattle.rate.specs.Calls.{step, Frames, Echo, Silence, Snr, Seed, Price, Family};
ghost use Rattle.rate.specs.bridges.Replies.{answer_of};
ghost use Rattle.question.specs.Bytes.{byte, le32, le_f64, reading_of};
ghost use Rattle.question.specs.Body.{frame_count, frames_in, bursts_in, call_of};

use crate::body::{burst_count, bursts_of, frame_count, frames_of, ok_bursts};
use crate::bytes::{byte_at, f64_of, past, reading_of, u32_of};
use crate::types::Kind;
use limits::refusal::Refusal;
use rate::calls::answer;
use rate::moves::ok_lengths;
use rate::player::Player;
use rate::types::{Answer, RateController, Reply};

// The call of a body of at most N frames. (Here and in `prices_event` what a body holds is made an array with its count beside, since a call takes a slice
// of its frames, or of its burst counts, and the library allocates nothing. Not inlined: else the stack of 256 frames would be taken where one is sent.)
#[inline(never)]
#[tactic(auto, using(crate::proofs::Bodies::length_frames, crate::proofs::Held::all_held))]
fn observe_in<const N: usize>(p: &mut Player, body: &[u8]) -> Reply
    requires room { frame_count body.now ≤ N }
    requires small { N ≤ 256 }
    ensures { answer_of p.new result ≡ step p.old (Frames (frames_in body.now) (reading_of (drop 1 body.now))) }
{
    let frames: [_; N] = frames_of(body);
    p.observe_frames(&frames[..frame_count(body)], reading_of(past(body, 1)))
}

// Kind 1. Refused: 6, 7, 8. A transmission mostly has one frame, and a short array is sooner made: none has over twice the places that are read, but for
// that of 16.
#[tactic(auto, using(crate::proofs::Bodies::length_frames, crate::proofs::Held::many_frames))]
fn frames_event(p: &mut Player, body: &[u8]) -> Reply
    ensures { answer_of p.new result ≡ step p.old (Frames (frames_in body.now) (reading_of (drop 1 body.now))) }
{
    match frame_count(body) {
        0..=1 => observe_in::<1>(p, body),
        2..=16 => observe_in::<16>(p, body),
        17..=32 => observe_in::<32>(p, body),
        33..=64 => observe_in::<64>(p, body),
        65..=128 => observe_in::<128>(p, body),
        129..=256 => observe_in::<256>(p, body),
        _ => Err(Refusal::TooManyFrames),
    }
}

// Kind 2. Refused: 8.
fn echo_event(p: &mut Player, body: &[u8]) -> Reply
    ensures { answer_of p.new result ≡ step p.old (Echo (reading_of (drop 1 body.now)) (le_f64 (drop 10 body.now))) }
{
    p.observe_echo(reading_of(past(body, 1)), f64_of(past(body, 10)))
}

// Kind 3.
fn silence_event(p: &mut Player, body: &[u8]) -> Reply
    ensures { answer_of p.new result ≡ step p.old (Silence (le32 (drop 1 body.now))) }
{
    p.silent(u32_of(past(body, 1)))
}

// Kind 4. Refused: 8.
fn snr_event(p: &mut Player, body: &[u8]) -> Reply
    ensures { answer_of p.new result ≡ step p.old (Snr (reading_of (drop 1 body.now))) }
{
    p.observe_snr(reading_of(past(body, 1)))
}

// Kind 5.
fn families_event(p: &mut Player, body: &[u8]) -> Reply
    ensures { answer_of p.new result ≡ step p.old (Family (eqb (byte body.now 1) 1) (eqb (byte body.now 2) 1)) }
{
    let own_floor = byte_at(body, 1) == 1;
    let other_floor = byte_at(body, 2) == 1;
    p.set_families(own_floor, other_floor)
}

// Whether the lengths of a body of prices and its burst counts, however many, are within their limits. The three lengths go as `ok_lengths` and the
// public `price_exchanges` take them: a struct of them would be made in `prices_event` and taken apart for each of the two.
fn within_prices(floor: f64, ordinary: f64, gap: f64, body: &[u8]) -> bool
    ensures { result ≡ (ok_length floor && ok_length ordinary && ok_length gap && every ok_burst (bursts_in body.now)) }
{
    ok_lengths(floor, ordinary, gap) && ok_bursts(body)
}

// Kind 6. Refused: 8, a count past the 32nd included, then 9.
#[tactic(auto, using(crate::proofs::Bodies::length_bursts, crate::proofs::Held::all_held, crate::proofs::Held::price_too_many, crate::proofs::Held::price_outside))]
fn prices_event(p: &mut Player, body: &[u8]) -> Reply
    ensures { answer_of p.new result ≡ step p.old (Price (le_f64 (drop 1 body.now)) (le_f64 (drop 9 body.now)) (le_f64 (drop 17 body.now)) (bursts_in body.now)) }
{
    let floor = f64_of(past(body, 1));
    let ordinary = f64_of(past(body, 9));
    let gap = f64_of(past(body, 17));
    let count = burst_count(body);
    if count <= 32 {
        return p.price_exchanges(floor, ordinary, gap, &bursts_of(body)[..count]);
    }
    if within_prices(floor, ordinary, gap, body) {
        return Err(Refusal::TooManyBursts);
    }
    Err(Refusal::OutsideLimits)
}

// Kind 7. Refused: 8.
fn seed_event(p: &mut Player, body: &[u8]) -> Reply
    ensures { answer_of p.new result ≡ step p.old (Seed (le_f64 (drop 1 body.now))) }
{
    p.seed(f64_of(past(body, 1)))
}

// The call that a body stands for, made in place: what it says. (A body of no kind breaks its form; it is no call's, and goes as a seed.)
#[tactic(auto, unfolding(crate::specs::Body::call_of))]
pub fn play(p: &mut Player, body: &[u8]) -> Reply
    ensures { answer_of p.new result ≡ step p.old (call_of body.now) }
{
    match Kind::try_from(byte_at(body, 0)) {
        Ok(Kind::Frames) => frames_event(p, body),
        Ok(Kind::Echo) => echo_event(p, body),
        Ok(Kind::Silence) => silence_event(p, body),
        Ok(Kind::Snr) => snr_event(p, body),
        Ok(Kind::Families) => families_event(p, body),
        Ok(Kind::Prices) => prices_event(p, body),
        Ok(Kind::Seed) | Err(_) => seed_event(p, body),
    }
}

// The same by value: what the call leaves and returns.
pub fn answer_event(k: RateController, body: &[u8]) -> Answer
    ensures { result ≡ step k (call_of body.now) }
{
    let mut p = Player::new(k);
    let reply = play(&mut p, body);
    answer(*p.controller(), reply)
}

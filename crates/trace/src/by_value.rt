// The call of a body again, by value, on the controller as it was before it.
use limits::reading::Reading;
use question::body::frames_of;
use question::bytes::{byte_at, f64_of, past, reading_of, u32_of};
use question::types::Kind;
use rate::types::{Answer, RateController};
use rules::types::Frame;
use std::alloc::AllocError;

// The bytes of a frame, and with them those that stand before the first one.
const FRAME: usize = 12;

const FRAMED: usize = 22;

// The bytes before the burst counts, and those of a count.
const PRICES: usize = 25;

const BURST: usize = 2;

// What `observe_frames` says and leaves; of a list of one frame `observe_frame`.
fn frames(
    rt: &impl AllocGlobal,
    k: RateController,
    body: &[u8],
    snr: Reading,
) -> Result<Answer, AllocError> {
    let sent: Vec<Frame> = body
        .windows(FRAMED)
        .step_by(FRAME)
        .map(|frame| frames_of::<1>(frame)[0])
        .collect(rt.alloc())?;
    Ok(match &sent[..] {
        [frame] => k.observe_frame(*frame, snr),
        frames => k.observe_frames(frames, snr),
    })
}

// What `price_exchanges` says and leaves. (Past its end a number's bytes are 0, so a count's two bytes are read as one of four.)
fn prices(rt: &impl AllocGlobal, k: RateController, body: &[u8]) -> Result<Answer, AllocError> {
    let bursts: Vec<u32> = past(body, PRICES)
        .chunks_exact(BURST)
        .map(u32_of)
        .collect(rt.alloc())?;
    let floor = f64_of(past(body, 1));
    let ordinary = f64_of(past(body, 9));
    let gap = f64_of(past(body, 17));
    Ok(k.price_exchanges(floor, ordinary, gap, &bursts))
}

// What the body's call says and leaves; an SNR reading goes by `observe`.
pub(crate) fn answer(
    rt: &impl AllocGlobal,
    k: RateController,
    body: &[u8],
) -> Result<Answer, AllocError> {
    let held = past(body, 1);
    Ok(match Kind::try_from(byte_at(body, 0)) {
        Ok(Kind::Frames) => return frames(rt, k, body, reading_of(held)),
        Ok(Kind::Prices) => return prices(rt, k, body),
        Ok(Kind::Echo) => k.observe_echo(reading_of(held), f64_of(past(body, 10))),
        Ok(Kind::Silence) => k.silent(u32_of(held)),
        Ok(Kind::Snr) => k.observe(reading_of(held)),
        Ok(Kind::Families) => k.set_families(byte_at(body, 1) == 1, byte_at(body, 2) == 1),
        Ok(Kind::Seed) | Err(_) => k.seed(f64_of(held)),
    })
}

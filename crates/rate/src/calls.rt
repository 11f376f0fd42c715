// The calls that change a controller, by value: each is the call in place, on the controller that was handed over.
// (Document 01 asks for them by value. Each makes a player, whose factors only frames need: a silence, a seed or an echo reading alone takes a fifth to a
// quarter longer than it would on the controller by itself. The parameters are those of the source's calls, here and in moves.rt: share and SNR, frames
// and SNR, the lengths and the gap. A struct of them would be made for one call and taken apart in it.)
ghost use Rattle.std.specs.Prelude.{◌≡◌, [], ◌∷◌};
ghost use Rattle.std.specs.Fn.{FnOnceReturnsAtMut};
ghost use Rattle.rate.specs.Calls.{step, Snr, Silence, Seed, Echo, Family, Frames, Price};
ghost use Rattle.rate.specs.bridges.Replies.{answer_of};

use crate::player::Player;
use crate::types::{Answer, RateController, Reply};
use limits::reading::Reading;
use rules::types::Frame;

// A controller as a call left it, with what the call said.
pub fn answer(k: RateController, said: Reply) -> Answer
    ensures { result ≡ answer_of k said }
{
    let marks = said.unwrap_or_default();
    Answer {
        controller: k,
        verdict: said.map(|_| ()),
        ended: marks.ended,
        begun: marks.begun,
    }
}

// A call in place, on a player of the controller that was handed over.
fn by_value<F: FnOnce(&mut Player) -> Reply>(k: RateController, call: F) -> Answer
    requires { F.IsAlwaysCallable call }
    ensures { (said : _) × (left : _) × FnOnceReturnsAtMut F.FnOnce call k said left × (result ≡ answer_of left said) }
{
    let mut p = Player::new(k);
    let said = call(&mut p);
    answer(*p.controller(), said)
}

impl RateController {
    // Takes an SNR reading and nothing else. Refused: 8.
    pub fn observe_snr(self, snr: Reading) -> Answer
        ensures { result ≡ step self (Snr snr) }
    {
        by_value(self, |p| p.observe_snr(snr))
    }

    // A burst's counts: only its SNR is read. Refused: 8.
    // (The source has this call beside `observe_snr`, so both names stay.)
    pub fn observe(self, snr: Reading) -> Answer
        ensures { result ≡ step self (Snr snr) }
    {
        self.observe_snr(snr)
    }

    // Transmissions went unanswered: a try ends, and the choice steps down.
    pub fn silent(self, steps: u32) -> Answer
        ensures { result ≡ step self (Silence steps) }
    {
        by_value(self, |p| p.silent(steps))
    }

    // Starts from the connect frame's reading, before any SNR is known. Refused: 8.
    pub fn seed(self, snr_db: f64) -> Answer
        ensures { result ≡ step self (Seed snr_db) }
    {
        by_value(self, |p| p.seed(snr_db))
    }

    // A frame's echo reading: a try of a rung that it rules out ends, and so does a choice. Refused: 8.
    pub fn observe_echo(self, share: Reading, snr_db: f64) -> Answer
        ensures { result ≡ step self (Echo share snr_db) }
    {
        by_value(self, |p| p.observe_echo(share, snr_db))
    }

    // The frames of one transmission, and its SNR reading. Refused: 6, 7, 8.
    pub fn observe_frames(self, frames: &[Frame], snr: Reading) -> Answer
        ensures { result ≡ step self (Frames frames.now snr) }
    {
        by_value(self, |p| p.observe_frames(frames, snr))
    }

    // A transmission of one frame, for a caller that holds it by itself. Refused: 6, 8.
    pub fn observe_frame(self, frame: Frame, snr: Reading) -> Answer
        ensures { result ≡ step self (Frames (frame ∷ []) snr) }
    {
        self.observe_frames(&[frame], snr)
    }

    // The families that both stations' control frames go in now.
    pub fn set_families(self, own_floor: bool, other_floor: bool) -> Answer
        ensures { result ≡ step self (Family own_floor other_floor) }
    {
        by_value(self, |p| p.set_families(own_floor, other_floor))
    }

    // Ranks the rungs per second of a whole exchange. Refused: 8, then 9.
    pub fn price_exchanges(
        self,
        control_floor_s: f64,
        control_ordinary_s: f64,
        gap_s: f64,
        burst_frames: &[u32],
    ) -> Answer
        ensures { result ≡ step self (Price control_floor_s control_ordinary_s gap_s burst_frames.now) }
    {
        by_value(
            self,
            |p| p.price_exchanges(control_floor_s, control_ordinary_s, gap_s, burst_frames),
        )
    }
}

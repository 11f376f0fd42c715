// The calls that change a controller, in place, on a player. Each promises `step` of specs/Calls.antt, which the waiting theorem speaks of.
// (The parameters are the source's: see calls.rt.)
ghost use Rattle.std.specs.Prelude.{◌≡◌, ◌≤◌, ◌&&◌, length};
ghost use Rattle.limits.specs.Refusals.{unless};
ghost use Rattle.limits.specs.Values.{ok_length, ok_burst};
ghost use Rattle.limits.specs.declared.refusal.Refusal.TheVariants.{OutsideLimits};
ghost use Rattle.ladder.specs.Lists.{every, filled};
ghost use Rattle.rate.specs.Calls.{verdict, accepted, step, Snr, Silence, Seed, Echo, Family, Frames, Price, tariff_of};
ghost use Rattle.rate.specs.bridges.Replies.{answer_of, done_reply};

use crate::player::Player;
use crate::types::{Reply, TryMarks, terms};
use account::state::was_ended;
use account::types::{Families, State, Tariff, Try};
use ladder::types::Table;
use limits::reading::Reading;
use limits::refusal::{Refusal, Verdict};
use rules::check::check_frames;
use rules::pass::book_frames;
use rules::types::Frame;

// The longest list of frames that is accepted, and of burst counts.
const MOST_FRAMES: usize = 256;

const MOST_BURSTS: usize = 32;

// ---- what a call says
// Accepted: the marks say what became of the try that ran before.
fn done(before: Option<Try>, s: &State, begun: bool) -> Reply
    ensures { result ≡ done_reply before s.now begun }
{
    Ok(TryMarks {
        ended: was_ended(before, s.core.trying, begun),
        begun,
    })
}

// A value that is outside its limits is refused: 8. (`known` of reads.rt differs in its refusal: one function for both would be handed the refusal at each
// of the calls below.)
pub(crate) fn in_limits(ok: bool) -> Verdict
    ensures { result ≡ unless ok OutsideLimits }
{
    ok.then_some(()).ok_or(Refusal::OutsideLimits)
}

// ---- what a call is asked
// A transmission's frames, and its SNR: 7 first, then the first bad frame, then the SNR.
#[tactic(auto, unfolding(crate::specs::Calls::verdict))]
fn frames_verdict(t: &Table, frames: &[Frame], snr: Reading) -> Verdict
    ensures { result ≡ verdict t.now (Frames frames.now snr) }
{
    if frames.len() > MOST_FRAMES {
        return Err(Refusal::TooManyFrames);
    }
    check_frames(t, frames)?;
    in_limits(limits::reading::ok_snr(snr))
}

// Whether the two control lengths and the gap are within their limits.
// (Three numbers, here and in `tariff_of`: a struct of them would be taken apart at once, into the fields of the `Tariff`.)
pub fn ok_lengths(floor: f64, ordinary: f64, gap: f64) -> bool
    ensures { result ≡ (ok_length floor && ok_length ordinary && ok_length gap) }
{
    limits::values::ok_length(floor)
        && limits::values::ok_length(ordinary)
        && limits::values::ok_length(gap)
}

// Whether each burst count is within its limits. (As the columns of the ladder: the walk is the library's `all`, and the test alone is named here.)
fn all_bursts(bursts: &[u32]) -> bool
    ensures { result ≡ every ok_burst bursts.now }
{
    bursts.iter().copied().all(limits::values::ok_burst)
}

// ---- a tariff
// The burst counts as an array, with 0 past the last; 32 at most are handed over.
// (An array and a count, as document 01 has it: "Vectors: 32-entry arrays with a count.")
#[tactic(auto, using(ladder::proofs::Arrays::rest_equal))]
fn burst_array(bursts: &[u32]) -> [u32; 32]
    requires { length bursts.now ≤ 32 }
    ensures { result ≡ filled 0 bursts.now }
{
    let mut held = [0; 32];
    held[..bursts.len()].copy_from_slice(bursts);
    held
}

// The tariff of these lengths and counts; 32 counts at most are handed over.
fn tariff_of(floor: f64, ordinary: f64, gap: f64, bursts: &[u32]) -> Tariff
    requires { length bursts.now ≤ 32 }
    ensures { result ≡ tariff_of floor ordinary gap bursts.now }
{
    Tariff {
        floor,
        ordinary,
        gap,
        bursts: burst_array(bursts),
        counted: bursts.len() as u32,
    }
}

// (The next four share the try before and `done`. With the step handed over as a closure it was tried: the borrow checker does not cover one that captures
// the terms.)
impl Player {
    // ---- readings and silence
    // Takes an SNR reading and nothing else. Refused: 8.
    #[tactic(auto, unfolding(crate::specs::Calls::step, crate::specs::Calls::accepted, crate::specs::Calls::verdict))]
    pub fn observe_snr(&mut self, snr: Reading) -> Reply
        ensures { answer_of self.new result ≡ step self.old (Snr snr) }
    {
        in_limits(limits::reading::ok_snr(snr))?;
        let k = &mut self.controller;
        let before = k.state.core.trying;
        steps::echo::observe_snr(&mut k.state, snr);
        done(before, &k.state, false)
    }

    // Transmissions went unanswered: a try ends, and the choice steps down.
    #[tactic(auto, unfolding(crate::specs::Calls::step, crate::specs::Calls::accepted, crate::specs::Calls::verdict))]
    pub fn silent(&mut self, steps: u32) -> Reply
        ensures { answer_of self.new result ≡ step self.old (Silence steps) }
    {
        let k = &mut self.controller;
        let before = k.state.core.trying;
        steps::echo::silent(&k.table, &mut k.state, steps);
        done(before, &k.state, false)
    }

    // Starts from the connect frame's reading, before any SNR is known. Refused: 8.
    #[tactic(auto, unfolding(crate::specs::Calls::step, crate::specs::Calls::accepted, crate::specs::Calls::verdict))]
    pub fn seed(&mut self, snr_db: f64) -> Reply
        ensures { answer_of self.new result ≡ step self.old (Seed snr_db) }
    {
        in_limits(limits::values::ok_db(snr_db))?;
        let k = &mut self.controller;
        let before = k.state.core.trying;
        steps::echo::seed(terms(&k.table, &k.prices), &mut k.state, snr_db);
        done(before, &k.state, false)
    }

    // A frame's echo reading: a try of a rung that it rules out ends, and so does a choice. Refused: 8.
    #[tactic(auto, unfolding(crate::specs::Calls::step, crate::specs::Calls::accepted, crate::specs::Calls::verdict))]
    pub fn observe_echo(&mut self, share: Reading, snr_db: f64) -> Reply
        ensures { answer_of self.new result ≡ step self.old (Echo share snr_db) }
    {
        in_limits(limits::reading::ok_echo(share, snr_db))?;
        let k = &mut self.controller;
        let before = k.state.core.trying;
        steps::echo::observe_echo(terms(&k.table, &k.prices), &mut k.state, share, snr_db);
        done(before, &k.state, false)
    }

    // ---- frames
    // Accepted: of an empty list only the SNR is taken.
    #[tactic(auto, using(crate::proofs::Transmitted::empty_accepted, crate::proofs::Transmitted::frames_accepted, rules::proofs::Keeping::still_kept))]
    fn accept_frames(&mut self, frames: &[Frame], snr: Reading) -> Reply
        ensures { answer_of self.new result ≡ accepted self.old (Frames frames.now snr) }
    {
        let k = &mut self.controller;
        let s = &mut k.state;
        let before = s.core.trying;
        steps::echo::observe_snr(s, snr);
        if frames.is_empty() {
            return done(before, s, false);
        }
        let pass = book_frames(&k.table, s, &mut self.fades, frames);
        let begun = steps::frames::transmit(terms(&k.table, &k.prices), s, &pass);
        done(before, s, begun)
    }

    // The frames of one transmission, and its SNR reading: one thin pass checks the frames, and one books them. Refused: 6, 7, 8.
    #[tactic(auto, unfolding(crate::specs::Calls::step))]
    pub fn observe_frames(&mut self, frames: &[Frame], snr: Reading) -> Reply
        ensures { answer_of self.new result ≡ step self.old (Frames frames.now snr) }
    {
        frames_verdict(&self.controller.table, frames, snr)?;
        self.accept_frames(frames, snr)
    }

    // ---- prices and families
    // The families that both stations' control frames go in now.
    #[tactic(auto, unfolding(crate::specs::Calls::step, crate::specs::Calls::accepted, crate::specs::Calls::verdict))]
    pub fn set_families(&mut self, own_floor: bool, other_floor: bool) -> Reply
        ensures { answer_of self.new result ≡ step self.old (Family own_floor other_floor) }
    {
        self.controller.prices.families = Some(Families {
            own_floor,
            other_floor,
        });
        Ok(TryMarks::default())
    }

    // Ranks the rungs per second of a whole exchange. Refused: 8, then 9.
    #[tactic(auto, unfolding(crate::specs::Calls::step, crate::specs::Calls::accepted, crate::specs::Calls::verdict))]
    pub fn price_exchanges(
        &mut self,
        control_floor_s: f64,
        control_ordinary_s: f64,
        gap_s: f64,
        burst_frames: &[u32],
    ) -> Reply
        ensures { answer_of self.new result ≡ step self.old (Price control_floor_s control_ordinary_s gap_s burst_frames.now) }
    {
        in_limits(
            ok_lengths(control_floor_s, control_ordinary_s, gap_s) && all_bursts(burst_frames),
        )?;
        if burst_frames.len() > MOST_BURSTS {
            return Err(Refusal::TooManyBursts);
        }
        let tariff = tariff_of(control_floor_s, control_ordinary_s, gap_s, burst_frames);
        self.controller.prices.tariff = Some(tariff);
        Ok(TryMarks::default())
    }
}

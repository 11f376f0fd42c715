// The one pass over a transmission's frames: what it gathers beside the accounts, one step a frame, and what it leaves.
ghost use Rattle.std.specs.Prelude.{◌≡◌};
ghost use Rattle.ladder.specs.Types.{rung_count};
ghost use Rattle.rules.specs.Booking.{book_frame};
ghost use Rattle.rules.specs.bridges.Pass.{add_rung, begin_pass, pass_step, pass_all, finish_core, turned, turned_all};
ghost use Rattle.rules.specs.bridges.Ageing.{booked_by, booked_all};

use crate::accounts::{Fades, book_frame, is_same};
use crate::marks::Marks;
use crate::offsets::move_offsets;
use crate::tries::count_own;
use crate::types::Frame;
use account::types::{Core, Offsets, State};
use ladder::types::{Rung, Table};

// The set of rungs sent, offsets, the call's air, the try's own frames, up to 3, and the marks.
// (The set is a number, as document 01 has it: "32-bit set; trailing zeros give the next rung, ones give how many are left".)
#[derive(Clone, Copy, PartialEq, Debug)]
pub struct Pass {
    pub sent: u32,
    pub offsets: Offsets,
    pub air: f64,
    pub own: u32,
    pub marks: Marks,
}

// The set with one rung more.
// (`1u32.checked_shl(r.0).map_or(set, |bit| set | bit)` is the same test, hidden in a method and a closure.)
fn add_rung(set: u32, r: Rung) -> u32
    ensures { result ≡ add_rung set r.0 }
{
    if r.0 < 32 { set | (1 << r.0) } else { set }
}

impl Pass {
    // Before the first frame; the core's SNR is smoothed already.
    pub(crate) fn begin(c: &Core) -> Pass
        ensures { result ≡ begin_pass c.now }
    {
        Pass {
            sent: 0,
            offsets: c.offsets,
            air: 0.0,
            own: 0,
            marks: Marks::default(),
        }
    }

    // One frame.
    #[tactic(auto, unfolding(crate::specs::bridges::Pass::pass_step))]
    pub(crate) fn gather(&mut self, t: &Table, c: &Core, f: Frame)
        ensures { self.new ≡ pass_step t.now c.now self.old f }
    {
        let here = t.rung_at(c.place);
        self.sent = add_rung(self.sent, f.rung);
        self.offsets = move_offsets(t, c.snr, f, self.offsets);
        self.air += f.air;
        self.own = count_own(c.trying, f, self.own);
        self.marks = self.marks.mark_family(t, f).mark_choice(here, f);
    }

    // What the pass leaves of the core.
    pub fn finish(&self, t: &Table, c: &mut Core)
        ensures { c.new ≡ finish_core t.now c.old self.now }
    {
        let here = t.rung_at(c.place);
        c.offsets = self.offsets;
        c.failed = self.marks.judge_family(c.failed);
        c.clean = self.marks.clean_mark(here);
    }
}

// ---- the frames, in order
// (By factors that are `Kept` the accounts are booked as the rules book them: `books_kept` of proofs/Keeping.antt. That is the invariant of rate's
// `Player`, which owns table and factors.)
// One frame: it is booked, and what else the pass gathers.
#[tactic(auto, unfolding(crate::specs::bridges::Pass::turned))]
pub(crate) fn take_frame(t: &Table, s: &mut State, fades: &mut Fades, pass: &mut Pass, f: Frame)
    ensures accounts { s.new ≡ record s.old { accounts = booked_by t.now (turned t.now f.air fades.old).by f s.old.accounts } }
    ensures gathered { pass.new ≡ pass_step t.now s.old.core pass.old f }
    ensures fades_after { fades.new ≡ turned t.now f.air fades.old }
{
    if !is_same(f.air, fades.air) {
        fades.fill(t, f.air);
    }
    book_frame(t, &mut s.accounts, fades, f);
    pass.gather(t, &s.core, f);
}

// All frames of a lent list.
#[tactic(auto, unfolding(crate::specs::bridges::Ageing::booked_all))]
pub fn book_frames(t: &Table, s: &mut State, fades: &mut Fades, frames: &[Frame]) -> Pass
    ensures accounts { s.new ≡ record s.old { accounts = booked_all t.now fades.old frames.now s.old.accounts } }
    ensures pass { result ≡ pass_all t.now s.old.core (begin_pass s.old.core) frames.now }
    ensures fades_after { fades.new ≡ turned_all t.now fades.old frames.now }
{
    let mut pass = Pass::begin(&s.core);
    for f in frames {
        take_frame(t, s, fades, &mut pass, *f);
    }
    pass
}

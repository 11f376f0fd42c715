// What a transmission says of the OFDM family, and of the choice.
ghost use Rattle.std.specs.Prelude.{◌≡◌};
ghost use Rattle.rules.specs.bridges.Pass.{mark_family, mark_choice, family_mark, choice_mark};

use crate::types::Frame;
use ladder::types::{Rung, Table};

// Whether one of the OFDM frames sent was decoded, and whether each of the frames that went at the choice was decoded alone: None, and so by default,
// where there was no such frame.
#[derive(Clone, Copy, Default, PartialEq, Eq, Debug)]
pub struct Marks {
    pub heard: Option<bool>,
    pub alone: Option<bool>,
}

impl Marks {
    // The marks after a frame, as far as its family goes.
    pub(crate) fn mark_family(self, t: &Table, f: Frame) -> Marks
        ensures { result ≡ mark_family t.now f self }
    {
        if t.is_floor(f.rung) {
            return self;
        }
        Marks {
            heard: Some(self.heard.unwrap_or(false) | f.decoded),
            ..self
        }
    }

    // The marks after a frame, as far as the choice goes.
    pub(crate) fn mark_choice(self, here: Rung, f: Frame) -> Marks
        ensures { result ≡ mark_choice here.0 f self }
    {
        if f.rung != here {
            return self;
        }
        Marks {
            alone: Some(self.alone.unwrap_or(true) & (f.decoded & !f.combined)),
            ..self
        }
    }

    // The failed mark after the pass.
    pub(crate) fn judge_family(self, failed: bool) -> bool
        ensures { result ≡ family_mark self failed }
    {
        self.heard.map_or(failed, |heard| !heard)
    }

    // The clean mark after the pass.
    pub(crate) fn clean_mark(self, here: Rung) -> Option<Rung>
        ensures { result ≡ choice_mark self here }
    {
        self.alone.unwrap_or(false).then_some(here)
    }
}

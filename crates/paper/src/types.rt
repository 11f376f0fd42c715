// What the paper's functions hand on and answer.
ghost use Rattle.std.specs.Prelude.{◌++◌, Some, codes};
ghost use Rattle.std.specs.Fmt.{decimal};

use ladder::types::Rung;
use limits::refusal::Refusal;
use std::fmt;
use std::fmt::{Display, Formatter, Write};

// What a line says of an event that is accepted, beside its number. (`ended` and `begun` stand by themselves, and not in a `TryMarks`: they are the last
// two of the line's five fields, and specs/Sheet.antt names them so.)
#[derive(Clone, Copy, PartialEq, Eq, Debug)]
pub struct Outcome {
    pub choice: Rung,
    pub tried: Option<Rung>,
    pub ofdm_refused: bool,
    pub ended: bool,
    pub begun: bool,
}

// What a line says of an event: its outcome, or why it was refused.
pub type Line = Result<Outcome, Refusal>;

// How many answers are right, of those that count.
#[derive(Clone, Copy, PartialEq, Eq, Debug, Default)]
pub struct Score {
    pub right: u32,
    pub counted: u32,
}

impl Display for Score {
    ghost output = { λ s. Some (decimal s.right ++ codes " " ++ decimal s.counted) };

    fn fmt<W: Write>(&self, f: &mut Formatter<W>) -> fmt::Result {
        write!(f, "{} {}", self.right, self.counted)
    }
}

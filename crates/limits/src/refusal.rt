// The causes of a refusal. The paper's number for each is `refusal_number` of specs/Refusals.antt.
ghost use Rattle.std.specs.Prelude.{◌≡◌, ◌++◌, Some, codes};
ghost use Rattle.std.specs.Fmt.{decimal};
ghost use Rattle.limits.specs.Refusals.{refusal_number};

use std::error::Error;
use std::fmt;

// The cause of a refusal, with the number that the paper gives it.
#[derive(Clone, Copy, PartialEq, Eq, Debug)]
pub enum Refusal {
    // A table column has 0 or over 32 entries (echo column: over 32).
    ColumnSize = 1,
    // Threshold, payload, capacity and frame-time columns differ in length.
    ColumnsDiffer = 2,
    // A table value is outside its limits.
    TableValue = 3,
    // More floor rungs than rungs.
    FloorCount = 4,
    // The front is empty.
    EmptyFront = 5,
    // The rung is not in the table.
    UnknownRung = 6,
    // Over 256 frames.
    TooManyFrames = 7,
    // A reading, air, capacity, price, gap, burst count or argument of `decode_probability` is outside its limits.
    OutsideLimits = 8,
    // Over 32 burst counts.
    TooManyBursts = 9,
    // The question file's size, air or event count.
    FileHeader = 10,
    // The pairs break their rule or run past the file.
    FilePairs = 11,
    // A body breaks its kind's form.
    FileBody = 12,
    // The whole sheet is longer than the output slice.
    SheetRoom = 13,
    // The answer count differs from the event count.
    AnswerCount = 14,
}

// What a call says of its arguments.
pub type Verdict = Result<(), Refusal>;

impl Refusal {
    // The number that the paper gives the cause.
    pub fn number(self) -> u32
        ensures { result ≡ refusal_number self }
    {
        self as u32
    }
}

impl fmt::Display for Refusal {
    ghost output = { λ why. Some (codes "refused " ++ decimal (refusal_number why)) };

    fn fmt<W: fmt::Write>(&self, f: &mut fmt::Formatter<W>) -> fmt::Result {
        write!(f, "refused {}", self.number())
    }
}

impl Error for Refusal {}

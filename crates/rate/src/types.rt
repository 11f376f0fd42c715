// What callers hold, and what the calls answer.
ghost use Rattle.std.specs.Prelude.{◌≡◌};

use account::types::{Prices, State, Terms};
use ladder::types::Table;
use limits::refusal::{Refusal, Verdict};

// A controller: its table, the prices set, and what the calls move.
#[derive(Clone, Copy, PartialEq, Debug)]
pub struct RateController {
    pub table: Table,
    pub prices: Prices,
    pub state: State,
}

// A controller's table and prices, as the steps take them: its state is lent beside them, to be moved or read.
pub(crate) fn terms<'a>(table: &'a Table, prices: &'a Prices) -> Terms<'a>
    ensures table { result.table.now ≡ table.now }
    ensures prices { result.prices.now ≡ prices.now }
{
    Terms { table, prices }
}

// The marks of a call: *ended* (a running try was ended) and *begun*; by default no try was touched.
#[derive(Clone, Copy, Default, PartialEq, Eq, Debug)]
pub struct TryMarks {
    pub ended: bool,
    pub begun: bool,
}

// What a changing call in place says: its marks, or why it was refused.
pub type Reply = Result<TryMarks, Refusal>;

// What a changing call by value leaves and returns: a refused call's controller is the one that was handed over, and its marks are off. (The controller
// stands beside the verdict, and not in it, since a refused call hands it back too. The two marks stand by themselves, and not in a `TryMarks`: document
// 01 says of each call that it "returns marks *ended* (a running try was ended) and *begun*", and specs/Calls.antt and the waiting theorem name them so.)
#[derive(Clone, Copy, PartialEq, Debug)]
pub struct Answer {
    pub controller: RateController,
    pub verdict: Verdict,
    pub ended: bool,
    pub begun: bool,
}

// An air's table: made of its columns, or turned away by the lowest of the refusals 1 to 5 that applies.
ghost use Rattle.std.specs.Prelude.{◌≡◌};
ghost use Rattle.ladder.specs.bridges.Lent.{lent};
ghost use Rattle.ladder.specs.Tables.{table_from, tabled, air_for, for_air};

use crate::columns::Columns;
use crate::types::{Air, Front, Row, Table};
use limits::refusal::Refusal;

// How far under the reading the prior is read, in dB, and how far a frame moves its family's offset, until `for_air` says otherwise.
const PRIOR_MARGIN_DB: f64 = 3.0;

const FAMILY_GAIN_DB: f64 = 0.5;

// The same on the 2 300 Hz air, by the source's ADR-0111: a rung's 10 % point arrives there 0.2 to 0.8 dB over its AWGN point, and 3 dB would leave a
// strong path a rung or two low. With the smaller margin a failing family is walked down twice as fast.
pub const WIDE_PRIOR_MARGIN_DB: f64 = 1.0;

pub const WIDE_FAMILY_GAIN_DB: f64 = 1.0;

// A table of its parts, with the settings that any air starts from. (Of the array of rows `count` are in use: document 01's form of a vector: "32-entry
// arrays with a count".)
fn table_from(rows: [Row; 32], count: u32, floors: u32, offered: Front) -> Table
    ensures { result ≡ table_from rows count floors offered }
{
    let air = Air {
        count,
        floors,
        margin: PRIOR_MARGIN_DB,
        gain: FAMILY_GAIN_DB,
    };
    Table {
        rows,
        front: offered,
        air,
    }
}

// A table of these columns.
#[tactic(auto, using(crate::proofs::Accepted::table_sizes), unfolding(crate::specs::Tables::tabled, crate::specs::Tables::table_verdict, crate::specs::Tables::table_of))]
pub fn table_for(c: &Columns) -> Result<Table, Refusal>
    ensures { result ≡ tabled (lent c.now) }
{
    if !c.ok_sizes() {
        return Err(Refusal::ColumnSize);
    }
    if !c.same_sizes() {
        return Err(Refusal::ColumnsDiffer);
    }
    if !c.ok_values() {
        return Err(Refusal::TableValue);
    }
    let n = c.thresholds.len() as u32;
    if c.floors > n {
        return Err(Refusal::FloorCount);
    }
    let offered = c.for_front().front();
    if offered.count == 0 {
        return Err(Refusal::EmptyFront);
    }
    let rows = c.rows();
    Ok(table_from(rows, n, c.floors, offered))
}

// The small facts with their air's settings of the prior: on the narrow air they stay.
// (`wide` is a bool here and in `for_air`, as in document 01, which calls `for_air(true)`, and in its definition. With an enum of the airs each contract
// would have to turn it into that bool. The `if` is between two values; a closure for each would be no plainer.)
fn air_for(a: Air, wide: bool) -> Air
    ensures { result ≡ air_for a wide }
{
    if wide {
        Air {
            margin: WIDE_PRIOR_MARGIN_DB,
            gain: WIDE_FAMILY_GAIN_DB,
            ..a
        }
    } else {
        a
    }
}

// The table with its air's settings of the prior.
pub fn for_air(t: Table, wide: bool) -> Table
    ensures { result ≡ for_air t wide }
{
    Table {
        air: air_for(t.air, wide),
        ..t
    }
}

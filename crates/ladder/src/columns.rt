// What a table is made of: a column each, and whether the columns are as they must be: their sizes, and their values within the limits.
ghost use Rattle.std.specs.Prelude.{◌≡◌};
ghost use Rattle.limits.specs.Values.{ok_db, ok_air, ok_bytes};
ghost use Rattle.limits.specs.Readings.{ok_limit};
ghost use Rattle.ladder.specs.Lists.{every};
ghost use Rattle.ladder.specs.Columns.{ok_size};

use crate::front::FrontColumns;
use crate::types::Row;
use limits::reading::{Reading, ok_limit};
use limits::values::{ok_air, ok_bytes, ok_db};
use std::array;

// The columns of a table that a caller lends, of which the first `floors` rungs are floor. The echo limits may be fewer: there is none past them.
// (Five slices side by side, and no slice of rows: a caller, as C's `rate_table_refusal`, has a column each, and their lengths may differ, which is
// refused.)
#[derive(Clone, Copy)]
pub struct Columns<'a> {
    pub thresholds: &'a [f64],
    pub payloads: &'a [u32],
    pub capacities: &'a [u32],
    pub times: &'a [f64],
    pub limits: &'a [Reading],
    pub floors: u32,
}

// A column of 1 to 32 entries.
pub(crate) fn ok_size(n: usize) -> bool
    ensures { result ≡ ok_size n }
{
    (1..=32).contains(&n)
}

// (The walk of the next four is the library's `all`, once for any type and test. Each names the test of its column; front.rt asks for three of them too.)
// A column of values in dB.
pub(crate) fn all_db(column: &[f64]) -> bool
    ensures { result ≡ every ok_db column.now }
{
    column.iter().copied().all(ok_db)
}

// A column of frame times.
pub(crate) fn all_air(column: &[f64]) -> bool
    ensures { result ≡ every ok_air column.now }
{
    column.iter().copied().all(ok_air)
}

// A column of payloads or of capacities.
pub(crate) fn all_bytes(column: &[u32]) -> bool
    ensures { result ≡ every ok_bytes column.now }
{
    column.iter().copied().all(ok_bytes)
}

// A column of echo limits.
fn all_limits(column: &[Reading]) -> bool
    ensures { result ≡ every ok_limit column.now }
{
    column.iter().copied().all(ok_limit)
}

impl Columns<'_> {
    ghost use Rattle.ladder.specs.bridges.Lent.{lent};
    ghost use Rattle.ladder.specs.Tables.{ok_sizes, same_sizes, ok_values, row_of, rows_of};

    // Whether each column has the size that it may have.
    pub(crate) fn ok_sizes(&self) -> bool
        ensures { result ≡ ok_sizes (lent self.now) }
    {
        ok_size(self.thresholds.len())
            && ok_size(self.payloads.len())
            && ok_size(self.capacities.len())
            && ok_size(self.times.len())
            && self.limits.len() <= 32
    }

    // Whether the columns have one length.
    pub(crate) fn same_sizes(&self) -> bool
        ensures { result ≡ same_sizes (lent self.now) }
    {
        let n = self.thresholds.len();
        self.payloads.len() == n && self.capacities.len() == n && self.times.len() == n
    }

    // Whether each value is within its limits.
    pub(crate) fn ok_values(&self) -> bool
        ensures { result ≡ ok_values (lent self.now) }
    {
        all_db(self.thresholds)
            && all_bytes(self.payloads)
            && all_bytes(self.capacities)
            && all_air(self.times)
            && all_limits(self.limits)
    }

    // Those of its front.
    pub(crate) fn for_front(&self) -> FrontColumns<'_>
        ensures thresholds { result.thresholds.now ≡ self.now.thresholds.now }
        ensures payloads { result.payloads.now ≡ self.now.payloads.now }
        ensures times { result.times.now ≡ self.now.times.now }
    {
        FrontColumns {
            thresholds: self.thresholds,
            payloads: self.payloads,
            times: self.times,
        }
    }

    // The row of rung `r`, or the row past the last rung. (Of columns of one length no default is read.)
    fn row(&self, r: usize) -> Row
        ensures { result ≡ row_of (lent self.now) r }
    {
        let Some(&threshold) = self.thresholds.get(r) else {
            return Row::NONE;
        };
        Row {
            threshold,
            capacity: self
                .capacities
                .get(r)
                .copied()
                .unwrap_or(Row::NONE.capacity),
            time: self.times.get(r).copied().unwrap_or(Row::NONE.time),
            limit: self.limits.get(r).copied().flatten(),
        }
    }

    // The rows of the rungs, and past them those of no rung.
    pub(crate) fn rows(&self) -> [Row; 32]
        ensures { result ≡ rows_of (lent self.now) }
    {
        array::from_fn(|r| self.row(r))
    }
}

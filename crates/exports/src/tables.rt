// Fronts, and the refusals of a table.
ghost use Rattle.std.specs.Prelude.{◌≡◌};
ghost use Rattle.ladder.specs.Front.{usable_of};
ghost use Rattle.ladder.specs.Tables.{columns, table_verdict};
ghost use Rattle.exports.specs.Tables.{numbers_of, reading_at, readings_of, echo_column, verdict_status, usable_status, usable_written};

use crate::status::{minus_number, status};
use ladder::columns::Columns;
use ladder::types::Rung;
use limits::reading::Reading;
use std::array;

// The rungs of a front by their numbers. (Not by `map`, which takes each of the 32 into an Option first: of few rungs that is most of the call's time.)
fn numbers_of(rungs: &[Rung; 32]) -> [u32; 32]
    ensures { result ≡ numbers_of rungs.now }
{
    let mut numbers = [0; 32];
    for (i, number) in numbers.iter_mut().enumerate() {
        *number = rungs[i].0;
    }
    numbers
}

// The number of rungs on the front, which stand in the first entries of out; or minus the refusal's number, and out is left as it was.
// (Its parameters are as turmexol.h declares them: each column is a pointer and a length. Why it matches: see status.rt.)
#[unsafe(no_mangle)]
pub extern "C" fn rate_usable_modes(
    thresholds: &[f64],
    payload: &[u32],
    frame_s: &[f64],
    out: &mut [u32; 32],
) -> i64
    ensures status { result ≡ usable_status (usable_of thresholds.now payload.now frame_s.now) }
    ensures written { out.new ≡ usable_written (usable_of thresholds.now payload.now frame_s.now) out.old }
{
    match ladder::front::usable_modes_by_rate(thresholds, payload, frame_s) {
        Ok(front) => {
            *out = numbers_of(&front.rungs);
            i64::from(front.count)
        }
        Err(why) => minus_number(why),
    }
}

// Entry i of the echo column.
fn reading_at(known: &[u8], limits: &[f64], i: usize) -> Reading
    ensures { result ≡ reading_at known.now limits.now i }
{
    match (known.get(i), limits.get(i)) {
        (Some(mark), Some(limit)) if *mark != 0 => Some(*limit),
        _ => None,
    }
}

// The first 33 entries of the echo column: one more than a table may have, so that a longer one is seen to be too long.
fn readings_of(known: &[u8], limits: &[f64]) -> [Reading; 33]
    ensures { result ≡ readings_of known.now limits.now }
{
    array::from_fn(|i| reading_at(known, limits, i))
}

// What `table_for` says of these columns: 0, or minus the refusal's number. Entry i of the echo column is missing where known[i] is 0, else limits[i].
// (As turmexol.h declares it. C has no Option and no Result: a column is a pointer and a length, a reading a byte and a number in two of them, and the
// verdict a number.)
#[tactic(auto, unfolding(ladder::specs::Tables::tabled))]
#[unsafe(no_mangle)]
pub extern "C" fn rate_table_refusal(
    thresholds: &[f64],
    payload: &[u32],
    capacity: &[u32],
    frame_s: &[f64],
    floor_modes: u32,
    known: &[u8],
    limits: &[f64],
) -> i64
    ensures { result ≡ verdict_status (table_verdict (columns thresholds.now payload.now capacity.now frame_s.now floor_modes (echo_column known.now limits.now))) }
{
    let readings = readings_of(known, limits);
    let columns = Columns {
        thresholds,
        payloads: payload,
        capacities: capacity,
        times: frame_s,
        limits: &readings[..known.len().min(33)],
        floors: floor_modes,
    };
    status(ladder::table::table_for(&columns).and(Ok(0)))
}

// The two airs' columns, number for number the source's, which has them from measurements of the PHY, and the tables that they make.
ghost use Rattle.std.specs.Prelude.{◌≡◌};
ghost use Rattle.ladder.specs.Tables.{tabled};
ghost use Rattle.ladder.specs.Airs.{wide_air, narrow_air};

use crate::columns::Columns;
use crate::table::table_for;
use crate::types::Table;
use limits::reading::Reading;
use limits::refusal::Refusal;

// (A constant for each column, by the source's name for it: `Columns`, `usable_modes_by_rate` and the calls for C take slices of one column each, which an
// array of rows could not lend.)

// ---- wide, 2 300 Hz: rungs 0 to 5 are the tone floor, 6 to 19 the OFDM modes 0 to 13
// The SNR in 3 kHz at which a rung loses one frame in ten with noise alone (AWGN). The floor's were measured by the source's tools/bench_tone.py
// (bench/baselines/tone_floor.csv), at the OFDM frames' peak power; the OFDM rungs' by bench_phy.py (phy_fer_awgn14.csv).
pub const AWGN_THRESHOLD_DB: [f64; 20] = [
    -19.0, -17.3, -16.0, -14.2, -13.1, -11.2, -5.1, -3.2, -1.8, -0.4, 1.4, 2.9, 4.7, 6.9, 6.0, 8.9,
    9.9, 13.9, 15.6, 16.9,
];

// The echo share above which a rung is kept off the air, by tools/bench_echo.py --limits (bench/baselines/echo.csv): a 7 ms echo breaks the short symbols
// of rung 5. A rung without a limit is carried by some measured path that echoes nearly as much as any that refuses it.
pub const ECHO_LIMIT: [Reading; 20] = [
    None,
    None,
    None,
    None,
    None,
    Some(0.0073),
    None,
    None,
    None,
    None,
    None,
    None,
    None,
    None,
    None,
    None,
    None,
    None,
    None,
    None,
];

// Payload bytes a frame.
pub const PAYLOAD_BYTES: [u32; 20] = [
    24, 36, 51, 75, 105, 153, 26, 46, 70, 95, 144, 193, 217, 291, 291, 389, 438, 585, 658, 732,
];

// Data bytes a frame, the payload less the header: the contract of `wide_table` has them so.
pub const CAPACITY_BYTES: [u32; 20] = [
    21, 33, 48, 72, 102, 150, 23, 43, 67, 92, 141, 190, 214, 288, 288, 386, 435, 582, 655, 729,
];

// A DATA frame's air in seconds: 134 slots of 40 ms on the floor, 34 symbols of 31 ms on the ordinary layout.
pub const FRAME_S: [f64; 20] = [
    5.36, 5.36, 5.36, 5.36, 5.36, 5.36, 1.054, 1.054, 1.054, 1.054, 1.054, 1.054, 1.054, 1.054,
    1.054, 1.054, 1.054, 1.054, 1.054, 1.054,
];

// ---- narrow, 500 Hz: rungs 0 to 4 are the tone floor, 5 to 14 the OFDM modes from QPSK 1/2
// As on the wide air, in the same 3 kHz: the floor's by tools/bench_tone.py (tone_floor.csv), the OFDM rungs' by tools/bench_phy.py --bandwidth 500
// (phy_fer_500.csv).
pub const NARROW_AWGN_THRESHOLD_DB: [f64; 15] = [
    -19.0, -17.3, -14.3, -13.0, -11.1, -5.2, -3.6, -2.1, 0.5, -0.1, 2.0, 3.5, 6.9, 8.8, 10.4,
];

// As on the wide air: two rays 5 ms apart break the 10 ms symbols of rungs 3 and 4, at their higher code rates; 4 ms apart they do not.
pub const NARROW_ECHO_LIMIT: [Reading; 15] = [
    None,
    None,
    None,
    Some(0.0038),
    Some(0.0038),
    None,
    None,
    None,
    None,
    None,
    None,
    None,
    None,
    None,
    None,
];

// Payload bytes a frame.
pub const NARROW_PAYLOAD_BYTES: [u32; 15] = [
    24, 36, 51, 75, 93, 25, 34, 39, 53, 53, 71, 81, 109, 123, 137,
];

// Data bytes a frame, the payload less the header.
pub const NARROW_CAPACITY_BYTES: [u32; 15] = [
    21, 33, 48, 72, 90, 22, 31, 36, 50, 50, 68, 78, 106, 120, 134,
];

// A DATA frame's air in seconds, as on the wide air.
pub const NARROW_FRAME_S: [f64; 15] = [
    5.36, 5.36, 5.36, 5.36, 5.36, 1.054, 1.054, 1.054, 1.054, 1.054, 1.054, 1.054, 1.054, 1.054,
    1.054,
];

// ---- control frames: the controller reads none of these; the link engine does. (By the source's names, two numbers an air, as it has them.)
// The tone floor's control frame loses one in ten here, on both airs (tone_floor.csv).
pub const TONE_CONTROL_THRESHOLD_DB: f64 = -19.5;

// The same of the ordinary control frame, on the short layout, and of the floor's: wide, and narrow (floor_500.csv).
pub const CONTROL_THRESHOLD_DB: [f64; 2] = [-5.1, TONE_CONTROL_THRESHOLD_DB];

pub const NARROW_CONTROL_THRESHOLD_DB: [f64; 2] = [-4.5, TONE_CONTROL_THRESHOLD_DB];

// ---- the tables
// The wide air's columns: 6 of its rungs are floor.
pub const WIDE: Columns = Columns {
    thresholds: &AWGN_THRESHOLD_DB,
    payloads: &PAYLOAD_BYTES,
    capacities: &CAPACITY_BYTES,
    times: &FRAME_S,
    limits: &ECHO_LIMIT,
    floors: 6,
};

// The narrow air's: 5.
pub const NARROW: Columns = Columns {
    thresholds: &NARROW_AWGN_THRESHOLD_DB,
    payloads: &NARROW_PAYLOAD_BYTES,
    capacities: &NARROW_CAPACITY_BYTES,
    times: &NARROW_FRAME_S,
    limits: &NARROW_ECHO_LIMIT,
    floors: 5,
};

// The wide air's table, as `table_for` makes it of the columns above. (One function for both airs would be handed the columns, as `table_for` is, which is
// what each of the two calls.)
pub fn wide_table() -> Result<Table, Refusal>
    ensures { result ≡ tabled wide_air }
{
    table_for(&WIDE)
}

// The narrow air's.
pub fn narrow_table() -> Result<Table, Refusal>
    ensures { result ≡ tabled narrow_air }
{
    table_for(&NARROW)
}

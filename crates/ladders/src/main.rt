// Prints docs/LADDERS.md: the ladder of each air, read off the controller that a paper of that air starts with. The gate holds this program to its file
// stdout, and the document to that file.
#![tactic(auto)]

use ladder::airs::{NARROW, WIDE};
use ladder::types::{Air, Rung, Table};
use question::start::fresh_for;
use ryu::Buffer;
use std::{fmt, io};

// What the document begins with.
const HEAD: &str = "# The ladders of the two airs

The program `ladders` prints this document from the tables that papers are played on. Nobody keeps
it by hand: the gate holds the program to its recorded output, and this file to the same bytes.

- **rung**: its number, as a frame of a question file has it and a sheet's line names it.
- **place**: where it stands on the front, from 0. The controller chooses among the rungs that have
  a place, and silence steps down by places. A rung with `-` is never chosen: another one carries at
  least as many data bytes a second, at a threshold at most as high.
- **family**: floor (tones) or OFDM.
- **threshold**: the SNR in 3 kHz at which one frame in ten is lost with noise alone.
- **payload**, **capacity**: the bytes of a frame, and its data bytes, which are the payload less a
  header of 3.
- **frame time**: the seconds of air that a frame takes.
- **echo limit**: the rung is out where the smoothed echo is above it; `-` where it never is.

Under a table stand the margin, which is how far under the reading the chance of a frame is read,
and the family gain, by which a frame's surprise moves its family's offset.
";

// What stands above the rows of an air.
const COLUMNS: &str = "
| rung | place | family | threshold, dB | payload | capacity | frame time, s | echo limit |
|---|---|---|---|---|---|---|---|
";

// A number is printed as a decimal that reads back as the same f64. (That it reads back is what `ryu` promises; std prints an f64 too, and promises
// nothing of its digits.)
#[derive(Clone, Copy)]
struct Decimal(f64);

impl fmt::Display for Decimal {
    fn fmt<W: fmt::Write>(&self, f: &mut fmt::Formatter<W>) -> fmt::Result {
        f.write_str(Buffer::new().format(self.0))
    }
}

// What may be missing is printed as `-` where it is.
#[derive(Clone, Copy)]
struct OrDash<T>(Option<T>);

impl<T: fmt::Display> fmt::Display for OrDash<T> {
    fn fmt<W: fmt::Write>(&self, f: &mut fmt::Formatter<W>) -> fmt::Result {
        match &self.0 {
            Some(x) => write!(f, "{x}"),
            None => f.write_str("-"),
        }
    }
}

// Prints a rung's row. (A table keeps no payloads, since a front is all that they are for: they are read from the air's column.)
fn put_rung(rt: &impl Print, table: &Table, payloads: &[u32], rung: Rung) -> io::Result<()> {
    let row = table.row(rung);
    let place = OrDash(table.front().iter().position(|here| *here == rung));
    let family = if table.is_floor(rung) {
        "floor"
    } else {
        "OFDM"
    };
    let threshold = Decimal(row.threshold);
    let payload = OrDash(payloads.get(rung.0 as usize).copied());
    let capacity = row.capacity;
    let time = Decimal(row.time);
    let limit = OrDash(row.limit.map(Decimal));
    println!(rt;
        "| {rung} | {place} | {family} | {threshold} | {payload} | {capacity} | {time} | {limit} |"
    )
}

// Prints the margin and the gain of an air.
fn put_settings(rt: &impl Print, air: &Air) -> io::Result<()> {
    let margin = Decimal(air.margin);
    let gain = Decimal(air.gain);
    println!(rt; "\nMargin {margin} dB, family gain {gain} dB.")
}

// Prints an air: its rungs, its margin and its gain.
fn put_air(rt: &impl Print, title: &str, table: &Table, payloads: &[u32]) -> io::Result<()> {
    println!(rt; "\n## {title}")?;
    rt.write_all(COLUMNS.as_bytes())?;
    for r in 0..table.rung_count() {
        put_rung(rt, table, payloads, Rung(r))?;
    }
    put_settings(rt, &table.air)
}

fn main(rt: HostRuntime) -> io::Result<()> {
    rt.write_all(HEAD.as_bytes())?;
    put_air(&rt, "Wide: air 1", &fresh_for(1).table, WIDE.payloads)?;
    put_air(&rt, "Narrow: air 2", &fresh_for(2).table, NARROW.payloads)
}

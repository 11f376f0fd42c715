// Replays recorded tables. They stand on standard input one after the other, little-endian. A record begins with a byte each for the entries of its
// five columns (0 to 40), a byte 0 and the count of floor rungs, a u32; then the columns: thresholds f64, payloads u32, capacities u32, frame times f64,
// and echo limits, a byte 0 or 1 and an f64 each. The first line is of no record: `wide` and the rungs that `usable_modes` answers. Then a line for each:
// `front` and the rungs of the table that `table_for` makes, `usable` and those that `usable_modes_by_rate` answers, and `payload` and those that
// `usable_modes_of` answers; for rungs that are refused `refused` and the number. What the Rust and the judge's reading of document 01 answered is in the
// file stdout, which the gate holds this program to.
#![tactic(auto)]

ghost use Rattle.std.specs.Prelude.{◌<◌, ◌≤◌, length, IfSome};

use ladder::columns::Columns;
use ladder::front::{usable_modes, usable_modes_by_rate, usable_modes_of};
use ladder::table::table_for;
use ladder::types::Front;
use limits::reading::Reading;
use limits::refusal::Refusal;
use question::bytes::{byte_at, f64_of, past, u32_of};
use std::alloc::{AllocError, Allocator};
use std::io;
use std::io::Read;

// The bytes before a record's columns.
const HEAD: usize = 10;

// The bytes of an entry of a column.
const FLOAT: usize = 8;

const NUMBER: usize = 4;

const READING: usize = 9;

// The most bytes of an input that are read.
const ROOM: u64 = 1048576;

// The bytes of a record's columns, and its count of floor rungs.
#[derive(Clone, Copy)]
struct Record<'a> {
    thresholds: &'a [u8],
    payloads: &'a [u8],
    capacities: &'a [u8],
    times: &'a [u8],
    limits: &'a [u8],
    floors: u32,
}

// ---- reading
// What is read of each entry of a column, where an entry has `size` bytes.
fn column<A: Allocator + Drop, T: Drop, F: Fn(&[u8]) -> T>(
    alloc: A,
    bytes: &[u8],
    size: usize,
    read: F,
) -> Result<Vec<T, A>, AllocError>
    requires callable { F.IsAlwaysCallable read }
    requires some { 0 < size }
{
    bytes
        .chunks_exact(size)
        .map(|entry| read(entry))
        .collect(alloc)
}

// An echo limit: an entry's first byte says whether there is one. (Any byte but 0 does; `reading_of` of a question file asks for a 1.)
fn limit_of(entry: &[u8]) -> Reading {
    (byte_at(entry, 0) != 0).then(|| f64_of(past(entry, 1)))
}

// A column's bytes, where an entry has `size`, and what is behind them. A count over 40 is taken for 40.
fn split_column(bytes: &[u8], count: u8, size: usize) -> Option<(&[u8], &[u8])>
    requires { size < 10 }
    ensures { IfSome result (λ p. length p.1.now ≤ length bytes.now) }
{
    bytes.split_at_checked(usize::from(count.min(40)) * size)
}

// The first record, and what is behind it.
fn first_record(text: &[u8]) -> Option<(Record<'_>, &[u8])>
    ensures { IfSome result (λ p. length p.1.now < length text.now) }
{
    let (head, rest) = text.split_first_chunk::<HEAD>()?;
    let (thresholds, rest) = split_column(rest, head[0], FLOAT)?;
    let (payloads, rest) = split_column(rest, head[1], NUMBER)?;
    let (capacities, rest) = split_column(rest, head[2], NUMBER)?;
    let (times, rest) = split_column(rest, head[3], FLOAT)?;
    let (limits, rest) = split_column(rest, head[4], READING)?;
    let record = Record {
        thresholds,
        payloads,
        capacities,
        times,
        limits,
        floors: u32_of(&head[6..]),
    };
    Some((record, rest))
}

// ---- writing
// Writes whose front it is, and its rungs, each behind a space, or why there is none.
fn put_front(rt: &impl Print, name: &str, front: Result<Front, Refusal>) -> io::Result<()> {
    print!(rt; "{name}")?;
    match front {
        Ok(front) => {
            for rung in front.rungs() {
                print!(rt; " {rung}")?;
            }
            Ok(())
        }
        Err(why) => print!(rt; " {why}"),
    }
}

// Writes the line of a table of these columns.
fn put_line(rt: &impl Print, columns: &Columns) -> io::Result<()> {
    let (thresholds, payloads) = (columns.thresholds, columns.payloads);
    let usable = usable_modes_by_rate(thresholds, payloads, columns.times);
    put_front(rt, "front", table_for(columns).map(|table| table.front))?;
    put_front(rt, " usable", usable)?;
    put_front(rt, " payload", usable_modes_of(thresholds, payloads))?;
    println!(rt)
}

// Answers a record.
fn answer(rt: &(impl Print + Alloc), record: &Record) -> io::Result<()> {
    let thresholds = column(rt.alloc(), record.thresholds, FLOAT, f64_of)?;
    let payloads = column(rt.alloc(), record.payloads, NUMBER, u32_of)?;
    let capacities = column(rt.alloc(), record.capacities, NUMBER, u32_of)?;
    let times = column(rt.alloc(), record.times, FLOAT, f64_of)?;
    let limits = column(rt.alloc(), record.limits, READING, limit_of)?;
    let columns = Columns {
        thresholds: &thresholds,
        payloads: &payloads,
        capacities: &capacities,
        times: &times,
        limits: &limits,
        floors: record.floors,
    };
    put_line(rt, &columns)
}

// Answers each whole record. A record that runs past the end is not answered.
fn replay(rt: &(impl Print + Alloc), mut text: &[u8]) -> io::Result<()> {
    while let Some((record, rest)) = first_record(text) {
        answer(rt, &record)?;
        text = rest;
    }
    Ok(())
}

fn main(rt: HostRuntime) -> io::Result<()> {
    let mut text = Vec::new(rt.alloc());
    rt.reader().take(ROOM).read_to_end(&mut text)?;
    put_front(&rt, "wide", usable_modes())?;
    println!(rt)?;
    replay(&rt, &text)
}

// Plays recorded lists of calls, and writes what each call leaves: choice, tried rung, OFDM refused, the marks, the refusal's number or 0, and a hash
// of what the call by value says and leaves (by_value.rt), of the state, and of what every call that only reads answers (mix.rt). Standard input has
// lists one after the other, little-endian: u32 rungs, floor rungs, wide (1 or 0), echo limits given; per rung threshold f64, payload u32, capacity
// u32, frame time f64; the limits as readings; u32 calls, and each call as u32 length and a body in the question file's own form. What the Rust
// answered is in the file stdout, which the gate holds this program to.
#![tactic(auto)]

ghost use Rattle.std.specs.Prelude.{◌≤◌, IfSome};
ghost use Rattle.trace.specs.declared.TheConstants.{MOST, RUNG};

mod by_value;
mod mix;

use ladder::columns::Columns;
use ladder::types::Rung;
use limits::refusal::Refusal;
use mix::Mix;
use question::bytes::{f64_of, part, past, reading_of, u32_of};
use rate::player::Player;
use rate::types::{Answer, RateController, Reply};
use std::alloc::AllocError;
use std::io::Read;
use std::{fmt, io};

// The bytes of a rung and of a reading.
const RUNG: usize = 24;

const READING: usize = 9;

// The most rungs, and the most echo limits, of a list that is played.
const MOST: usize = 32;

// The most bytes of an input that are read.
const ROOM: u64 = 1048576;

// ---- reading a list
// The head of a list: how many rungs, floor rungs and echo limits it has, and whether its air is wide. That is a bool, as the input has it and
// `for_air` takes it: an enum would be made here to be taken apart there.
#[derive(Clone, Copy)]
struct Head {
    rungs: usize,
    floors: u32,
    wide: bool,
    limited: usize,
}

// What is left of the input. Past its end each number is 0.
#[derive(Drop)]
struct Input<'a> {
    rest: &'a [u8],
}

impl<'a> Input<'a> {
    // The next n bytes, or as many as there are.
    fn bytes(&mut self, n: usize) -> &'a [u8] {
        let taken = part(self.rest, 0, n);
        self.rest = past(self.rest, n);
        taken
    }

    fn number(&mut self) -> u32 {
        u32_of(self.bytes(4))
    }

    // The next rows.
    fn rows(&mut self, count: usize, size: usize) -> Rows<'a>
        requires { (count ≤ MOST) × (size ≤ RUNG) }
    {
        Rows {
            bytes: self.bytes(count * size),
            size,
            count,
        }
    }

    // The body of the call that is next.
    fn call(&mut self) -> &'a [u8] {
        let n = self.number() as usize;
        self.bytes(n)
    }

    // The head that is next, unless it has more rungs or limits than are played.
    fn head(&mut self) -> Option<Head>
        ensures { IfSome result (λ head. (head.rungs ≤ MOST) × (head.limited ≤ MOST)) }
    {
        let rungs = self.number() as usize;
        let floors = self.number();
        let wide = self.number() == 1;
        let limited = self.number() as usize;
        (rungs <= MOST && limited <= MOST).then_some(Head {
            rungs,
            floors,
            wide,
            limited,
        })
    }
}

// So many rows of `size` bytes, one after the other, of which the last may run past the input's end. (Bytes and a count, and no slice of rows: there is
// none of a row past the end.)
#[derive(Clone, Copy)]
struct Rows<'a> {
    bytes: &'a [u8],
    size: usize,
    count: usize,
    ghost few: { (count ≤ MOST) × (size ≤ RUNG) },
}

impl Rows<'_> {
    // What is read of each row, at its start. (Not by `chunks_exact`, which has no row to give past the input's end.)
    fn column<T: Drop, F: Fn(&[u8]) -> T>(
        &self,
        rt: &impl AllocGlobal,
        read: F,
    ) -> Result<Vec<T>, AllocError>
        requires callable { F.IsAlwaysCallable read }
    {
        (0..self.count)
            .map(|i| read(past(self.bytes, i * self.size)))
            .collect(rt.alloc())
    }
}

// The controller of the list with that head, whose rungs and limits are next.
fn controller(
    rt: &impl AllocGlobal,
    input: &mut Input,
    head: Head,
) -> Result<Result<RateController, Refusal>, AllocError>
    requires { (head.rungs ≤ MOST) × (head.limited ≤ MOST) }
{
    let rungs = input.rows(head.rungs, RUNG);
    let thresholds = rungs.column(rt, f64_of)?;
    let payload = rungs.column(rt, |row| u32_of(past(row, 8)))?;
    let capacity = rungs.column(rt, |row| u32_of(past(row, 12)))?;
    let times = rungs.column(rt, |row| f64_of(past(row, 16)))?;
    let limits = input.rows(head.limited, READING).column(rt, reading_of)?;
    Ok(RateController::for_table(&Columns {
        thresholds: &thresholds,
        payloads: &payload,
        capacities: &capacity,
        times: &times,
        limits: &limits,
        floors: head.floors,
    }))
}

// ---- playing it
// The rung that is tried, or `-`.
#[derive(Drop)]
struct Tried(Option<Rung>);

impl fmt::Display for Tried {
    fn fmt<W: fmt::Write>(&self, f: &mut fmt::Formatter<W>) -> fmt::Result {
        match self.0 {
            None => f.write_str("-"),
            Some(r) => write!(f, "{r}"),
        }
    }
}

// Writes a call's line. Of a refused call both marks are off.
fn tell(rt: &impl Print, k: &RateController, reply: Reply, by_value: &Answer) -> io::Result<()> {
    let number = reply.err().map_or(0, |why| why.number());
    let marks = reply.unwrap_or_default();
    let choice = k.choice();
    let tried = Tried(k.probing());
    let ofdm = u32::from(k.refuses_ofdm());
    let ended = u32::from(marks.ended);
    let begun = u32::from(marks.begun);
    let all = Mix::START.answer(by_value).controller(k).hash();
    println!(rt; "{choice} {tried} {ofdm} {ended} {begun} {number} {all:016x}")
}

// Plays the calls that are next, each by value and then in place.
fn play_calls(
    rt: &(impl Print + AllocGlobal),
    start: RateController,
    input: &mut Input,
    calls: u32,
) -> io::Result<()> {
    let mut player = Player::new(start);
    for _ in 0..calls {
        let body = input.call();
        let by_value = by_value::answer(rt, *player.controller(), body)?;
        let reply = question::event::play(&mut player, body);
        tell(rt, player.controller(), reply, &by_value)?;
    }
    Ok(())
}

// Plays the list that is next, or passes over the calls of a table that is refused. After a list that is too large nothing is read.
fn play_list(rt: &(impl Print + AllocGlobal), input: &mut Input) -> io::Result<()> {
    let Some(head) = input.head() else {
        input.rest = &[];
        return Ok(());
    };
    let made = controller(rt, input, head)?;
    let calls = input.number();
    match made {
        Ok(k) => {
            println!(rt; "table places {}", k.table.front.count)?;
            play_calls(rt, k.for_air(head.wide), input, calls)
        }
        Err(why) => {
            println!(rt; "{why}")?;
            for _ in 0..calls {
                input.call();
            }
            Ok(())
        }
    }
}

// Plays each list. Each takes some bytes, so there are no more lists than bytes. (A `while` on what is left would end by a promise of each reader, and of
// what calls it, that it takes bytes: seven clauses more than this `break`.)
fn play(rt: &(impl Print + AllocGlobal), bytes: &[u8]) -> io::Result<()> {
    let mut input = Input { rest: bytes };
    for _ in 0..bytes.len() {
        if input.rest.is_empty() {
            break;
        }
        play_list(rt, &mut input)?;
    }
    Ok(())
}

fn main(rt: HostRuntime) -> io::Result<()> {
    let mut lists = Vec::new(rt.alloc());
    rt.reader().take(ROOM).read_to_end(&mut lists)?;
    play(&rt, &lists)
}

// Plays document 01's checked examples that are not P rows, and more at each limit of a paper. Standard input has papers one after the other,
// little-endian: u32 lengths of the name, the question file and the answers, u32 room of the output slice (at most 32,768), then name, question file and
// answers. For each it writes the name; the sheet, or `refused` and the number; and `marks`, with right and counted, or `refused` and the number.
// The file stdout, which the gate holds this program to, was written from document 01 by hand, but for the papers whose names begin with `recorded`: those
// sheets are the Rust's.
#![tactic(auto)]

ghost use Rattle.std.specs.Prelude.{◌≡◌, ◌-◌, ◌<◌, length, IfSome};

use question::bytes::{past, u32_of};
use std::io;
use std::io::Read;

// The bytes before a paper's name.
const HEAD: u32 = 16;

// The most bytes of an output slice, of which the library says how many it filled.
const SHEET: usize = 32768;

// The most bytes of an input that are read.
const ROOM: u64 = 262144;

// A paper of the input, and the room of the output slice that its sheet gets.
#[derive(Clone, Copy)]
struct Paper<'a> {
    name: &'a [u8],
    question: &'a [u8],
    answers: &'a [u8],
    room: usize,
}

// ---- reading
// The next `len` bytes, and what is behind them. Where there are fewer, all of them are taken.
fn split(bytes: &[u8], len: u32) -> (&[u8], &[u8])
    ensures { length result.1.now ≡ length bytes.now - len }
{
    bytes.split_at(bytes.len().min(len as usize))
}

// The first paper, and what is behind it. A number past the input's end is 0.
fn first_paper(papers: &[u8]) -> Option<(Paper<'_>, &[u8])>
    ensures { IfSome result (λ p. length p.1.now < length papers.now) }
{
    if papers.is_empty() {
        return None;
    }
    let (head, rest) = split(papers, HEAD);
    let (name, rest) = split(rest, u32_of(head));
    let (question, rest) = split(rest, u32_of(past(head, 4)));
    let (answers, rest) = split(rest, u32_of(past(head, 8)));
    let paper = Paper {
        name,
        question,
        answers,
        room: u32_of(past(head, 12)) as usize,
    };
    Some((paper, rest))
}

// ---- playing
// Writes a paper's name and its sheet, and marks its answers.
fn play(rt: &impl Print, paper: Paper) -> io::Result<()> {
    rt.write_all(paper.name)?;
    rt.write_all(b"\n")?;
    let mut out = [0u8; SHEET];
    let slice = &mut out[..paper.room.min(SHEET)];
    match paper::sheet::sheet(paper.question, slice) {
        Ok(len) => rt.write_all(&slice[..len])?,
        Err(why) => println!(rt; "{why}")?,
    }
    match paper::mark::mark(paper.question, paper.answers) {
        Ok(score) => println!(rt; "marks {score}"),
        Err(why) => println!(rt; "marks {why}"),
    }
}

// Plays the papers, one after the other. (A loop over an iterator of them would need a promise of what each `next` leaves, a definition more, to end.)
fn play_all(rt: &impl Print, mut papers: &[u8]) -> io::Result<()> {
    while let Some((paper, rest)) = first_paper(papers) {
        play(rt, paper)?;
        papers = rest;
    }
    Ok(())
}

fn main(rt: HostRuntime) -> io::Result<()> {
    let mut papers = Vec::new(rt.alloc());
    rt.reader().take(ROOM).read_to_end(&mut papers)?;
    play_all(&rt, &papers)
}

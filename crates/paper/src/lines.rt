// An event's line, the line of a refused file, and how long they are. A line goes to a slice that has room for it, piece by piece: each after the bytes
// already written, into the part of the slice that is lent from there. The writers return how many bytes they took; why they do is said in `text`.
ghost use Rattle.std.specs.Prelude.{◌≡◌, ◌≤◌, length, if◌then◌else◌, Ok, Err};
ghost use Rattle.question.specs.Over.{over};
ghost use Rattle.paper.specs.Lines.{cell_bytes, ended, cells_bytes};
ghost use Rattle.paper.specs.Sheet.{tried_cell, line_bytes, refused_bytes};
ghost use Rattle.paper.specs.bridges.Said.{flag_cells};

use crate::text::{digits_of, write_bytes, write_field};
use crate::types::{Line, Outcome};
use ladder::types::Rung;
use limits::refusal::Refusal;

// ---- pieces
// The tried rung or `-`, and a space. (A `match`, here and in `write_line`: the two closures of `map_or_else` would both hold `out`, which is lent once.)
#[tactic(auto, unfolding(crate::specs::Lines::ended))]
fn write_tried(out: &mut [u8], tried: Option<Rung>) -> usize
    requires { length (ended (tried_cell tried) 32) ≤ length out.old }
    ensures value { result ≡ length (ended (tried_cell tried) 32) }
    ensures out_after { out.new ≡ over (ended (tried_cell tried) 32) out.old }
{
    match tried {
        Some(rung) => write_field(out, rung.0, b' '),
        None => write_bytes(out, b"- "),
    }
}

// The digit of a flag.
fn digit(flag: bool) -> u8
    ensures { result ≡ (if flag then 49 else 48) }
{
    b'0' + u8::from(flag)
}

// The three flags that end the line of an answered event.
#[tactic(auto, using(crate::proofs::Pieces::flags_row))]
fn write_flags(out: &mut [u8], o: Outcome) -> usize
    requires { length (cells_bytes (flag_cells o)) ≤ length out.old }
    ensures value { result ≡ length (cells_bytes (flag_cells o)) }
    ensures out_after { out.new ≡ over (cells_bytes (flag_cells o)) out.old }
{
    let flags = [
        digit(o.ofdm_refused),
        b' ',
        digit(o.ended),
        b' ',
        digit(o.begun),
        b'\n',
    ];
    write_bytes(out, &flags)
}

// `refused` and the number.
#[tactic(auto, using(question::proofs::Over::partly_first, question::proofs::Over::partly_within, question::proofs::Over::partly_total, question::proofs::Over::last_room, crate::proofs::Lent::word_whole, crate::proofs::Pieces::row_two, crate::proofs::Pieces::length_refused), unfolding(crate::specs::Lines::ended, crate::specs::Sheet::refused_bytes))]
pub(crate) fn write_refused(out: &mut [u8], why: Refusal) -> usize
    requires { length (refused_bytes why) ≤ length out.old }
    ensures value { result ≡ length (refused_bytes why) }
    ensures out_after { out.new ≡ over (refused_bytes why) out.old }
{
    let k = write_bytes(out, b"refused ");
    k + write_field(&mut out[k..], why.number(), b'\n')
}

// ---- lines
// The line of an answered event.
#[tactic(auto, using(crate::proofs::Lent::one, crate::proofs::Lent::two, crate::proofs::Lent::three, crate::proofs::Lent::flags_room, crate::proofs::Lent::flags_whole, question::proofs::Over::partly_within, question::proofs::Over::partly_total, question::proofs::Over::last_room, question::proofs::Over::piece_fits, question::proofs::Over::piece_room, crate::proofs::Pieces::choice_next, crate::proofs::Pieces::tried_next, crate::proofs::Pieces::flags_next, crate::proofs::Pieces::answered_row, crate::proofs::Pieces::flags_length, crate::proofs::Pieces::ended_length))]
fn write_answered(out: &mut [u8], event: u32, o: Outcome) -> usize
    requires { length (line_bytes event (Ok o)) ≤ length out.old }
    ensures value { result ≡ length (line_bytes event (Ok o)) }
    ensures out_after { out.new ≡ over (line_bytes event (Ok o)) out.old }
{
    let mut len = write_field(out, event, b' ');
    len += write_field(&mut out[len..], o.choice.0, b' ');
    len += write_tried(&mut out[len..], o.tried);
    len + write_flags(&mut out[len..], o)
}

// The line of a refused event.
#[tactic(auto, using(crate::proofs::Lent::told, crate::proofs::Lent::told_whole, question::proofs::Over::partly_within, question::proofs::Over::partly_total, question::proofs::Over::last_room, crate::proofs::Pieces::refused_row, crate::proofs::Pieces::ended_length))]
fn write_turned_away(out: &mut [u8], event: u32, why: Refusal) -> usize
    requires { length (line_bytes event (Err why)) ≤ length out.old }
    ensures value { result ≡ length (line_bytes event (Err why)) }
    ensures out_after { out.new ≡ over (line_bytes event (Err why)) out.old }
{
    let k = write_field(out, event, b' ');
    k + write_refused(&mut out[k..], why)
}

// An event's line.
pub(crate) fn write_line(out: &mut [u8], event: u32, line: Line) -> usize
    requires { length (line_bytes event line) ≤ length out.old }
    ensures value { result ≡ length (line_bytes event line) }
    ensures out_after { out.new ≡ over (line_bytes event line) out.old }
{
    match line {
        Ok(o) => write_answered(out, event, o),
        Err(why) => write_turned_away(out, event, why),
    }
}

// ---- lengths
//
// The sheet's length is known before a byte is written, since refusal 13 leaves the slice as it was: so what a writer above writes has its length
// here, as `measure_lines` is to `write_lines`. One function for both would need a trait of what takes the bytes, with a law and two impls, to save
// these sums.
//
// How long the tried rung or `-` is.
fn tried_length(tried: Option<Rung>) -> usize
    ensures { (result ≡ length (cell_bytes (tried_cell tried))) × (result ≤ 10) }
{
    tried.map_or(1, |rung| digits_of(rung.0))
}

// How long the line of `refused` and the number is.
#[tactic(auto, using(crate::proofs::Pieces::length_refused))]
pub(crate) fn refused_length(why: Refusal) -> usize
    ensures { (result ≡ length (refused_bytes why)) × (result ≤ 19) }
{
    9 + digits_of(why.number())
}

// How long an event's line is. (A `match`: `map_or_else` would be a closure for each arm, the second first.)
#[tactic(auto, using(crate::proofs::Pieces::refused_row, crate::proofs::Pieces::answered_row))]
pub(crate) fn line_length(event: u32, line: Line) -> usize
    ensures { (result ≡ length (line_bytes event line)) × (result ≤ 39) }
{
    let head = digits_of(event) + 1;
    match line {
        Ok(o) => head + digits_of(o.choice.0) + tried_length(o.tried) + 8,
        Err(why) => head + refused_length(why),
    }
}

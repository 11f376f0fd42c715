// The sheet of a question file: its events are run once, and what is said of them is printed. How long the lines are is known before a byte is written.
// Why each writer answers a length, and why a length is found by a function of its own, is said in `text` and in `lines`.
ghost use Rattle.std.specs.Prelude.{◌≡◌, ◌≤◌, length, IfOk};
ghost use Rattle.question.specs.Over.{over};
ghost use Rattle.paper.specs.Sheet.{room_verdict, sheet_by, sheet_answer, left_by, sheet_left, refused_bytes, fitting, printed_in};
ghost use Rattle.paper.specs.bridges.Said.{said, text_from};

use crate::lines::{line_length, refused_length, write_line, write_refused};
use crate::run::with_lines;
use crate::types::Line;
use limits::refusal::Refusal;
use question::verdict::file_verdict;

// How long the lines are. (That they are 1,000 at most stands in three contracts here: of the two loops over them, whose numbers are to fit, and of the
// function that calls both. A struct with that invariant would be made of what `with_lines` lends, for one caller. An event's number is `i as u32 + 1`,
// and not what `(1u32..).zip(lines)` gives: std's lemmas say nothing of what an open range yields.)
fn measure_lines(lines: &[Line]) -> usize
    requires { length lines.now ≤ 1000 }
    ensures { result ≡ length (text_from 1 lines.now) }
{
    lines
        .iter()
        .enumerate()
        .map(|(i, line)| line_length(i as u32 + 1, *line))
        .sum()
}

// The lines at the start of the slice, in which they have room: each goes after the bytes already written. Returns how many bytes they took.
#[tactic(auto, using(question::proofs::Over::partly_start, crate::proofs::Lent::line_written))]
fn write_lines(lines: &[Line], out: &mut [u8]) -> usize
    requires few { length lines.now ≤ 1000 }
    requires room { length (text_from 1 lines.now) ≤ length out.old }
    ensures value { result ≡ length (text_from 1 lines.now) }
    ensures out_after { out.new ≡ over (text_from 1 lines.now) out.old }
{
    let mut len = 0;
    for (i, line) in lines.iter().enumerate() {
        len += write_line(&mut out[len..], i as u32 + 1, *line);
    }
    len
}

// The sheet of a file whose lines these are, if it has room. (`file` stands for the contract alone: a call in a closure cannot be handed a ghost value.)
#[tactic(auto, using(crate::proofs::Said::sheet_text))]
fn fit_sheet(file: &[u8], lines: &[Line], out: &mut [u8]) -> Result<usize, Refusal>
    requires lines_value { lines.now ≡ said file.now }
    requires few { length lines.now ≤ 1000 }
    ensures value { result ≡ sheet_by file.now (room_verdict file.now out.old) }
    ensures out_after { out.new ≡ left_by file.now out.old (room_verdict file.now out.old) }
    ensures within { IfOk result (λ len. len ≤ length out.old) }
{
    if measure_lines(lines) > out.len() {
        return Err(Refusal::SheetRoom);
    }
    Ok(write_lines(lines, out))
}

// The sheet of a question file, at the start of the slice. Refused: 10, 11, 12, 13, and the slice is left as it was.
#[tactic(auto, using(question::proofs::Events::few_events, crate::proofs::Said::said_length), unfolding(crate::specs::Sheet::sheet_verdict, crate::specs::Sheet::sheet_answer, crate::specs::Sheet::sheet_left))]
pub fn sheet(question: &[u8], out: &mut [u8]) -> Result<usize, Refusal>
    ensures value { result ≡ sheet_answer question.now out.old }
    ensures out_after { out.new ≡ sheet_left question.now out.old }
    ensures within { IfOk result (λ len. len ≤ length out.old) }
{
    file_verdict(question)?;
    with_lines(question, &mut |lines| fit_sheet(question, lines, out))
}

// The line of a refused file, if it has room.
#[tactic(auto, unfolding(crate::specs::Sheet::fitting, question::specs::Over::over))]
fn print_refused(out: &mut [u8], why: Refusal) -> usize
    ensures value { result ≡ length (fitting (refused_bytes why) out.old) }
    ensures out_after { out.new ≡ over (fitting (refused_bytes why) out.old) out.old }
    ensures within { result ≤ length out.old }
{
    if refused_length(why) > out.len() {
        return 0;
    }
    write_refused(out, why)
}

// What the program prints of a question file, at the start of the slice: the sheet, or the line of a refused file. Returns how many bytes it took.
// (`unwrap_or_else` was tried: of what its closure, an `FnOnce`, leaves in the slice that it captured a proof is told nothing.)
#[tactic(auto, using(crate::proofs::Printed::printed_sheet, crate::proofs::Printed::printed_refused))]
pub fn print_sheet(question: &[u8], out: &mut [u8]) -> usize
    ensures value { result ≡ length (printed_in question.now out.old) }
    ensures out_after { out.new ≡ over (printed_in question.now out.old) out.old }
    ensures within { result ≤ length out.old }
{
    match sheet(question, out) {
        Ok(len) => len,
        Err(why) => print_refused(out, why),
    }
}

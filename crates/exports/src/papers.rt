// The sheet of a question file, and its marking.
ghost use Rattle.std.specs.Prelude.{◌≡◌};
ghost use Rattle.paper.specs.Sheet.{sheet_answer, sheet_left, mark_answer};
ghost use Rattle.exports.specs.Papers.{sheet_status, mark_status, right_after, counted_after};
ghost use Rattle.exports.specs.Room.{EnoughRoom};

use crate::status::{minus_number, status};

// The sheet's length, and the sheet at the start of out; or minus the refusal's number, and out is left as it was. Where out has room for any sheet
// it is never refused for its length.
#[tactic(auto, using(crate::proofs::Room::enough_room))]
#[unsafe(no_mangle)]
pub extern "C" fn paper_sheet(question: &[u8], out: &mut [u8]) -> i64
    ensures status { result ≡ sheet_status (sheet_answer question.now out.old) }
    ensures written { out.new ≡ sheet_left question.now out.old }
    ensures room { EnoughRoom question.now out.old }
{
    // (A length past 32 bits does not occur; `sheet_status` has the same least of the two.)
    status(paper::sheet::sheet(question, out).map(|len| u32::try_from(len).unwrap_or(u32::MAX)))
}

// 0, and the right answers and those that count; or minus the refusal's number, and both are left as they were. (Why it matches: see status.rt.)
#[unsafe(no_mangle)]
pub extern "C" fn paper_mark(
    question: &[u8],
    answers: &[u8],
    right: &mut u32,
    counted: &mut u32,
) -> i64
    ensures status { result ≡ mark_status (mark_answer question.now answers.now) }
    ensures right { right.new ≡ right_after (mark_answer question.now answers.now) right.old }
    ensures counted { counted.new ≡ counted_after (mark_answer question.now answers.now) counted.old }
{
    match paper::mark::mark(question, answers) {
        Ok(score) => {
            *right = score.right;
            *counted = score.counted;
            0
        }
        Err(why) => minus_number(why),
    }
}

// Marking: one answer byte an event, held against the choice in that event's line.
ghost use Rattle.std.specs.Prelude.{◌≡◌, ◌<◌, ◌≤◌, ◌^◌, length};
ghost use Rattle.paper.specs.Sheet.{score_of, mark_answer};
ghost use Rattle.paper.specs.bridges.Said.{scored_line, score_lines};

use crate::run::with_lines;
use crate::types::{Line, Score};
use limits::refusal::Refusal;
use question::file::event_count;
use question::verdict::file_verdict;

// The score with one answer more; a refused event does not count.
fn score(m: Score, line: Line, answer: u8) -> Score
    requires { (m.right < 4294967295) × (m.counted < 4294967295) }
    ensures { result ≡ scored_line m line answer }
{
    line.map_or(
        m,
        |o| Score {
            right: m.right + u32::from(u32::from(answer) == o.choice.0),
            counted: m.counted + 1,
        },
    )
}

// The score of as many answers as there are lines.
#[tactic(auto, using(crate::proofs::Said::score_next, crate::proofs::Said::score_end, crate::proofs::Said::scored_most, std::proofs::lemmas::Slice::Zip::zip_turn, std::proofs::lemmas::Slice::Zip::zip_end))]
fn score_all(lines: &[Line], answers: &[u8]) -> Score
    requires { length lines.now < 2 ^ 32 }
    ensures { result ≡ score_lines (record { right = 0; counted = 0 }) lines.now answers.now }
{
    let mut m = Score::default();
    for (line, answer) in lines.iter().zip(answers) {
        m = score(m, *line, *answer);
    }
    m
}

// How many answers are right, and how many count. Refused: 10, 11, 12, 14.
#[tactic(auto, using(question::proofs::Events::few_events, crate::proofs::Said::said_length, crate::proofs::Said::score_text), unfolding(crate::specs::Sheet::mark_verdict, crate::specs::Sheet::mark_answer))]
pub fn mark(question: &[u8], answers: &[u8]) -> Result<Score, Refusal>
    ensures { result ≡ mark_answer question.now answers.now }
{
    file_verdict(question)?;
    if answers.len() != event_count(question) as usize {
        return Err(Refusal::AnswerCount);
    }
    Ok(with_lines(question, &mut |lines| score_all(lines, answers)))
}

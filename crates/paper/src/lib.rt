// Document 01's section "Question file, sheet, marking", but for the question file, which is crate `question`: one run of a file's events through a
// controller, the sheet that is printed from their outcomes, and the marking of answers by them.
#![tactic(auto)]

mod lines;
pub mod mark;
mod run;
pub mod sheet;
mod text;
pub mod types;

// The sender's rate controller: every call of the source's `RateController`, by value, with its refusals and marks; and the same calls in place, for
// whoever plays many. Each station has one for the data that it sends, and nothing else decides at which rung that goes.
#![tactic(auto)]

pub mod calls;
pub mod make;
pub mod moves;
pub mod player;
pub mod reads;
pub mod types;

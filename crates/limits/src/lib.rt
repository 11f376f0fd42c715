// What is turned away: one case for each cause of document 01's table, and the limits of the values that a caller hands over.
#![tactic(auto)]

pub mod reading;
pub mod refusal;
pub mod values;

// The ladder: the rungs of an air's table, what is turned away of a table, and the front, the rungs worth offering.
#![tactic(auto)]

pub mod airs;
pub mod columns;
pub mod front;
pub mod table;
pub mod types;

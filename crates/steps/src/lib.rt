// The steps of a controller in place: its table and the prices set are lent as one pair, `Terms`, and its state to be changed. A step moves what it
// changes and copies nothing. Each function promises what the crate rules defines for it, and asks nothing of its callers.
// (Terms and state stay two parameters: one struct of both would be another type where the state is read than where it is moved, and each step would have
// to promise that table and prices stay. Where no price is needed the table is lent by itself, as `t`.)
#![tactic(auto)]

mod decide;
pub mod echo;
pub mod frames;
mod judge;

// The f64 of the crates above: its bit patterns in code, and in proofs/ the laws of its order and rounding that their proofs cite.
#![tactic(auto)]

pub mod bits;

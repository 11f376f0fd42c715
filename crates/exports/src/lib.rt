// The calls for programs in Rust and C, as a static library; include/turmexol.h declares them.
#![tactic(auto)]

pub mod numbers;
pub mod papers;
pub mod status;
pub mod tables;

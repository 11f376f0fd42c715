// The half-power, the exponential and the logistic that stand in for the library's `powf` and `exp`: document 01's section "Half-power and logistic".
#![tactic(auto)]

pub mod logistic;
pub mod power;

// The rules of a controller: the definitions of all its steps are in specs/, document 01's sections "Echo and silence" and "A transmission". Here is what
// they come to on single values, which the steps share, and what one pass over a transmission's frames gathers.
#![tactic(auto)]

pub mod accounts;
pub mod check;
pub mod echo;
pub mod lowest;
pub mod marks;
pub mod offsets;
pub mod pass;
pub mod tries;
pub mod types;

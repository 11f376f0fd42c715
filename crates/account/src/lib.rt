// What a controller keeps beside its table, and what a rung is rated by: document 01's section "Accounts, prior and price".
#![tactic(auto)]

pub mod fixed;
pub mod price;
pub mod state;
pub mod types;

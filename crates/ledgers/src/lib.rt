// The ledger: a keep in memory that the caller lends, with a line for each put.
#![tactic(auto)]

mod fit;
pub mod ledger;
mod lines;
pub mod set_up;

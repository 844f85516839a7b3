// Blocks: a keep in memory that the caller lends, with so many places for each group.
#![tactic(auto)]

mod block;
pub mod keep;
mod memory;
pub mod set_up;

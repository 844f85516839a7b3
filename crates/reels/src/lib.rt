// The reel: a write-once store in memory that the caller lends, with the cells in the order of writing.
#![tactic(auto)]

mod lines;
pub mod reel;
pub mod set_up;

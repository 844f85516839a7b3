// The plate: a write-once store in memory that the caller lends, with a place for every cell.
#![tactic(auto)]

mod memory;
pub mod plate;
pub mod set_up;

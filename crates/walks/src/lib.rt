// The walk over the cells of a key's path.
#![tactic(auto)]

mod look;
pub mod walk;

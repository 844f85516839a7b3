// The entry of a filed drawing in its cell, and back.
#![tactic(auto)]

pub mod cell;
pub mod entry;

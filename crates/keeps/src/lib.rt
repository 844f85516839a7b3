// Keeps: where drawings lie, held apart from the index and wiped group by group. What a keep is, and what holds over every one.
#![tactic(auto)]

pub mod checks;
pub mod fault;
pub mod keep;

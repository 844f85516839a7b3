// Write-once stores of cells: what a store is, and what holds over every one.
#![tactic(auto)]

pub mod checks;
pub mod fault;
pub mod store;

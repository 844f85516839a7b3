// Commands to a store, a line each: reading them, and what the store answers.
#![tactic(auto)]

pub mod answer;
pub mod command;

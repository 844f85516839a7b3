// Commands to a keep, a line each: reading them, and what the keep answers.
#![tactic(auto)]

pub mod answer;
pub mod command;

// The trees that paths lead through: their settings, the refusals of settings, and what a path is.
#![tactic(auto)]

pub mod examples;
pub mod fault;
pub mod settings;

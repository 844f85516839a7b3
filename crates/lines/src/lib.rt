// Reads line-oriented input: its lines, the fields of a line, and the words and numbers that they hold.
#![tactic(auto)]

mod cut;
pub mod decimal;
pub mod fault;
pub mod field;
pub mod input;
pub mod parse;

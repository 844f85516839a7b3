// The rules of the archive and the law of its histories: what each call answers and leaves, and what holds over any
// list of calls. Definitions and theorems; the calls themselves rest on them.
#![tactic(auto)]

pub mod answer;
pub mod examples;
pub mod fault;
pub mod theorems;

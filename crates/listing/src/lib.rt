// Answers a batch of settings and keys: for each key, every cell in which its entry may stand.
#![tactic(auto)]

pub mod draft;
pub mod fault;
pub mod machine;
pub mod state;
pub mod wish;

// Tests of keeps on examples, in a crate of their own: each is proved safe, and run.
#![tactic(auto)]

#[cfg(test)]
mod any_keep;
#[cfg(test)]
mod blocks_tests;
#[cfg(test)]
mod ledger_tests;

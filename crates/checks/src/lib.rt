// Tests of keys and path rules on examples, in a crate of their own: each is proved safe, and run.
#![tactic(auto)]

#[cfg(test)]
mod keys_tests;
#[cfg(test)]
mod outcomes;
#[cfg(test)]
mod paths_tests;

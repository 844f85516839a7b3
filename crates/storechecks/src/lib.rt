// Tests of stores on examples, in a crate of their own: each is proved safe, and run.
#![tactic(auto)]

#[cfg(test)]
mod pile_tests;
#[cfg(test)]
mod plate_tests;
#[cfg(test)]
mod reel_tests;

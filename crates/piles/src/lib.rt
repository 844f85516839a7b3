// Stores over stores: a window on a run of cells, and two stores joined. They pile in any order.
#![tactic(auto)]

pub mod join;
pub mod window;

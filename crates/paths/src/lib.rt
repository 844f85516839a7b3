// Path rules: for each key the list of cells in which its entry may ever stand, settled by the key alone.
#![tactic(auto)]

pub mod cells;
pub mod descent;
pub mod make;
pub mod path;
pub mod rule;
pub mod rule_path;
pub mod shape;
mod value;

// A path rule: thin, fat or trie, of any settings that are not refused.
ghost use Rattle.std.specs.Prelude.{◌≡◌, ◌≤◌, true};
ghost use Rattle.trees.specs.Geometry.{first_cell, largest_total};
ghost use Rattle.trees.specs.Settings.{all_fit};

use crate::shape::Shape;
use trees::settings::Coefficient;

// The most levels that a tree has.
pub const MOST_LEVELS: usize = 16;

// The coefficients stand in a table of the most levels; past the levels of the shape they have no meaning. A table and no
// `Vec`: a rule is copied, and making one takes no heap and so cannot run out of memory.
#[derive(Clone, Copy)]
pub struct Rule {
    pub(crate) shape: Shape,
    pub(crate) total: u32,
    pub(crate) coefficients: [Coefficient; MOST_LEVELS],
    ghost whole: { total ≡ first_cell shape.cells shape.children shape.levels },
    ghost small: { total ≤ largest_total },
    ghost fit: { all_fit coefficients ≡ true },
}

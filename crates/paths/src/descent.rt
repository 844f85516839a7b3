// A walk down the levels of a tree, for one key.
ghost use Rattle.std.specs.Prelude.{◌≡◌, ◌<◌};
ghost use Rattle.paths.specs.Tries.{try_cell};

// Where a path comes into a level. It belongs to the rule that gave it.
#[derive(Clone, Copy)]
pub struct Descent {
    // What the key is hashed to.
    pub hash: u32,
    // The level that comes next, its first cell and its number of cells.
    pub level: u32,
    pub first: u32,
    pub span: u32,
    // The node of the level above; 0 above level 0.
    pub node: u32,
}

// The tries of one level: cells of one node, from an index on and round past the last cell to the first.
#[derive(Clone, Copy)]
pub struct Tries {
    // The node's first cell.
    pub first: u32,
    pub index: u32,
    // The cells of the node.
    pub cells: u32,
    ghost some: { 0 < cells },
}

impl Tries {
    // The cell of try j.
    pub fn cell(&self, j: u32) -> u32
        ensures { result ≡ try_cell self.now.first self.now.index self.now.cells j }
    {
        let place = (u64::from(self.index) + u64::from(j)) % u64::from(self.cells);
        self.first.saturating_add(place as u32)
    }
}

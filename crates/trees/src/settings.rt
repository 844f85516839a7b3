// The settings of a path rule, as they are asked for and not yet checked.
ghost use Rattle.std.specs.Prelude.{◌≡◌};
ghost use Rattle.trees.specs.Settings.{coefficient_fits};

use keys::hash::MODULUS;

// How a key's hashes pick the nodes of its path.
#[derive(Clone, Copy, PartialEq, Eq, Debug)]
pub enum Scheme {
    // One of the children of the node above.
    Thin,
    // Any node of the level.
    Fat,
    // As in thin, by successive bits of the key's digest.
    Trie,
}

#[derive(Clone, Copy, PartialEq, Eq, Debug)]
pub struct Settings {
    pub scheme: Scheme,
    // m, the cells of a node: 1 to 256.
    pub cells: u64,
    // k, the children of a node: 2 to 256.
    pub children: u64,
    // L, the levels: 1 to 16.
    pub levels: u64,
    // t, the tries in a node: 1 to m.
    pub tries: u64,
}

// The coefficients of one level's hash function, (a × fold + b) mod p.
#[derive(Clone, Copy, PartialEq, Eq, Debug)]
pub struct Coefficient {
    // 1 to p - 1.
    pub a: u64,
    // 0 to p - 1.
    pub b: u64,
}

impl Coefficient {
    // Whether both are in their ranges.
    pub fn fits(&self) -> bool
        ensures { result ≡ coefficient_fits self.now }
    {
        (1..MODULUS).contains(&self.a) && self.b < MODULUS
    }
}

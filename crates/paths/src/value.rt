// The value of a level: which child and which cell a key's hash picks there.
ghost use Rattle.std.specs.Prelude.{◌≡◌, ◌*◌, ◌<◌, ◌≤◌, true};
ghost use Rattle.trees.specs.Geometry.{span as span_of};
ghost use Rattle.trees.specs.Paths.{hashed, thin_range, bits_of, value_at, node_below};
ghost use Rattle.trees.specs.Settings.{coefficient_fits, log_two};
ghost use Rattle.trees.specs.declared.settings.Scheme.TheVariants.{Trie};
ghost use Rattle.paths.specs.Rules.{settings_of};
ghost use Rattle.paths.specs.Tries.{in_32_bits};

use crate::descent::Descent;
use crate::rule::Rule;
use crate::shape::Shape;
use keys::hash::MODULUS;
use trees::settings::{Coefficient, Scheme};

// The hash function of one level, below a range.
fn hashed_below(c: Coefficient, fold: u32, range: u32) -> u32
    requires fits { coefficient_fits c ≡ true }
    requires some { 0 < range }
    ensures { result ≡ hashed c fold range }
{
    ((c.a * u64::from(fold) + c.b) % MODULUS % u64::from(range)) as u32
}

// The range of a level's values in a thin tree.
fn range_in_thin(shape: &Shape, level: u32) -> u32
    ensures value { result ≡ thin_range shape.now.cells shape.now.children level }
    ensures some { 0 < result }
{
    if level == 0 {
        shape.cells
    } else {
        shape.cells * shape.children
    }
}

// The bits of a digest that a trie takes at a level.
fn bits(shape: &Shape, digest: u32, level: u32) -> u32
    requires trie { shape.now.scheme ≡ Trie }
    requires deep { level < 16 }
    ensures { result ≡ bits_of (log_two shape.now.cells) digest level }
{
    let width = shape.cells.trailing_zeros();
    if level == 0 {
        return (u64::from(digest) >> (32 - width)) as u32;
    }
    let behind = 32u32.saturating_sub(width * (level + 1));
    ((u64::from(digest) >> behind) % u64::from(shape.cells * shape.children)) as u32
}

impl Rule {
    // The value of a level for a descent that has come there.
    pub(crate) fn value(&self, at: &Descent) -> u32
        requires { at.now.level < self.now.shape.levels }
        ensures { at.now.span ≡ span_of self.now.shape.cells self.now.shape.children at.now.level → result ≡ value_at (settings_of self.now) at.now.hash at.now.level }
    {
        let shape = &self.shape;
        let coefficient = self.coefficients[at.level as usize];
        match shape.scheme {
            Scheme::Thin => hashed_below(coefficient, at.hash, range_in_thin(shape, at.level)),
            // A descent of another rule may have any span.
            Scheme::Fat => hashed_below(coefficient, at.hash, at.span.max(1)),
            Scheme::Trie => bits(shape, at.hash, at.level),
        }
    }

    // The node that a child's number leads to.
    pub(crate) fn node_of(&self, above: u32, child: u32) -> u32
        ensures { result ≡ in_32_bits (node_below self.now.shape.scheme self.now.shape.children above child) }
    {
        match self.shape.scheme {
            Scheme::Thin | Scheme::Trie => self
                .shape
                .children
                .saturating_mul(above)
                .saturating_add(child),
            Scheme::Fat => child,
        }
    }
}

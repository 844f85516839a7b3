// The shape of a tree: settings whose numbers are in range.
ghost use Rattle.std.specs.Prelude.{◌≡◌, ◌≤◌, true, false, MatchResult};
ghost use Rattle.trees.specs.Settings.{AskedFor, asked_in_range, scheme_takes};
ghost use Rattle.trees.specs.Refusal.{first_cell_answer, total_answer};
ghost use Rattle.trees.specs.declared.fault.RuleFault.TheVariants.{Setting};

use trees::fault::RuleFault;
use trees::settings::{Scheme, Settings};

// The largest total of a tree.
pub const LARGEST_TOTAL: u32 = 1048576;

// A shape has all its numbers in their ranges, and a trie's m and k fit.
#[derive(Clone, Copy)]
pub struct Shape {
    pub(crate) scheme: Scheme,
    pub(crate) cells: u32,
    pub(crate) children: u32,
    pub(crate) levels: u32,
    pub(crate) tries: u32,
    ghost node: { (1 ≤ cells) × (cells ≤ 256) },
    ghost fork: { (2 ≤ children) × (children ≤ 256) },
    ghost depth: { (1 ≤ levels) × (levels ≤ 16) },
    ghost width: { (1 ≤ tries) × (tries ≤ cells) },
    ghost taken: { scheme_takes scheme cells children ≡ true },
}

// Whether a scheme takes so many cells and children.
fn takes(scheme: Scheme, cells: u32, children: u32) -> bool
    ensures { result ≡ scheme_takes scheme cells children }
{
    match scheme {
        Scheme::Thin | Scheme::Fat => true,
        Scheme::Trie => {
            let bits = cells.trailing_zeros();
            cells == children && u64::from(cells) == 1 << bits && bits > 0
        }
    }
}

impl Shape {
    // The shape with these settings; 1 SETTING where one is out of range.
    pub fn new(settings: Settings) -> Result<Shape, RuleFault>
        ensures { MatchResult result (λ s. AskedFor settings s.scheme s.cells s.children s.levels s.tries) (λ f. (f ≡ Setting) × (asked_in_range settings ≡ false)) }
    {
        let Settings {
            scheme,
            cells,
            children,
            levels,
            tries,
        } = settings;
        let in_range = (1..=256).contains(&cells)
            && (2..=256).contains(&children)
            && (1..=16).contains(&levels)
            && (1..=cells).contains(&tries);
        if !in_range || !takes(scheme, cells as u32, children as u32) {
            return Err(RuleFault::Setting);
        }
        Ok(Shape {
            scheme,
            cells: cells as u32,
            children: children as u32,
            levels: levels as u32,
            tries: tries as u32,
        })
    }

    // The first cell of a level, at the level behind the last the total; 1 SETTING past that, 3 SIZE above 1048576.
    pub fn first_cell(&self, level: u32) -> Result<u32, RuleFault>
        ensures { result ≡ first_cell_answer self.now.cells self.now.children self.now.levels level }
    {
        if level > self.levels {
            return Err(RuleFault::Setting);
        }
        let mut first = 0;
        let mut span = self.cells;
        for _ in 0..level {
            if span > LARGEST_TOTAL - first {
                return Err(RuleFault::Size);
            }
            first += span;
            span *= self.children;
        }
        Ok(first)
    }

    // The number of cells on all levels; 3 SIZE above 1048576.
    pub fn total(&self) -> Result<u32, RuleFault>
        ensures { result ≡ total_answer self.now.cells self.now.children self.now.levels }
    {
        self.first_cell(self.levels)
    }
}

// What a path rule is.
ghost use Rattle.std.specs.Prelude.{◌≡◌, ℕ, ◌+◌, ◌<◌, ◌≤◌, true, List, is_some, None};
ghost use Rattle.trees.specs.Laws.{RuleLaws};
ghost use Rattle.trees.specs.Settings.{RuleSettings};
ghost use Rattle.paths.specs.Levels.{GoesDown};
ghost use Rattle.paths.specs.declared.descent.Descent.{Descent};

use crate::descent::{Descent, Tries};

// A rule that gives each key its path, by the key's 12 bytes.
pub trait PathRule {
    // All that settles its paths.
    ghost settings: { Self → RuleSettings };

    // What `total`, `levels` and `tries` answer: the cells of all levels, the levels, and the tries in each.
    ghost extent: { Self → ℕ };

    ghost depth: { Self → ℕ };

    ghost width: { Self → ℕ };

    // The cells in which a key's entry may stand, in the order in which they are tried.
    ghost path: { Self → List ℕ → List ℕ };

    // Where a key's path comes into a level.
    ghost stage: { Self → List ℕ → ℕ → Descent };

    ghost placed: { (rule : Self) (key : List ℕ) (level : ℕ) → (stage rule key level).level ≡ level };

    ghost laws: { RuleLaws settings extent depth width path };

    fn total(&self) -> u32
        ensures { result ≡ extent self.now };

    fn levels(&self) -> u32
        ensures { result ≡ depth self.now };

    fn tries(&self) -> u32
        ensures { result ≡ width self.now };

    // Above level 0, for this key.
    fn start(&self, key: &[u8; 12]) -> Descent
        ensures { result ≡ stage self.now key.now 0 };

    // One level down: the tries there, or nothing past the last level.
    fn descend(&self, at: &mut Descent) -> Option<Tries>
        ensures down { GoesDown depth width path stage self.now at.old at.new result }
        ensures onward { at.old.level < depth self.now → (is_some result ≡ true) × (at.new.level ≡ at.old.level + 1) }
        ensures ended { depth self.now ≤ at.old.level → (result ≡ None) × (at.new ≡ at.old) };
}

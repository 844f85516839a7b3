// A rule as a path rule: the way down its levels.
ghost use Rattle.std.specs.Prelude.{◌≡◌, ℕ, ◌+◌, ◌<◌, List, refl};
ghost use Rattle.trees.specs.Paths.{hash_of};
ghost use Rattle.paths.specs.Levels.{TriesOf};
ghost use Rattle.paths.specs.RuleLaws.{rule_laws};
ghost use Rattle.paths.specs.Rules.{rule_path, rule_stage, settings_of, stage_at};

use crate::descent::{Descent, Tries};
use crate::path::PathRule;
use crate::rule::Rule;
use keys::hash::{digest, fold};
use trees::settings::Scheme;

// What a key is hashed to, once for its whole path.
fn hash_of(scheme: Scheme, key: &[u8; 12]) -> u32
    ensures { result ≡ hash_of scheme key.now }
{
    match scheme {
        Scheme::Thin | Scheme::Fat => fold(key),
        Scheme::Trie => digest(key),
    }
}

// Above level 0, for a key with this hash.
fn top(rule: &Rule, hash: u32) -> Descent
    ensures { result ≡ stage_at (settings_of rule.now) hash 0 }
{
    Descent {
        hash,
        level: 0,
        first: 0,
        span: rule.shape.cells,
        node: 0,
    }
}

// One level down: where the path comes into the level behind it, and the tries of the level.
fn below(rule: &Rule, at: &Descent) -> (Descent, Tries)
    requires { at.now.level < rule.now.shape.levels }
    ensures down { (key : List ℕ) (level : ℕ) → at.now ≡ rule_stage rule.now key level → (result.0 ≡ rule_stage rule.now key (level + 1)) × TriesOf (rule_path rule.now key) rule.now.shape.tries level result.1 }
    ensures onward { result.0.level ≡ at.now.level + 1 }
{
    let cells = rule.shape.cells;
    let value = rule.value(at);
    let node = rule.node_of(at.node, value / cells);
    let first = at.first.saturating_add(node.saturating_mul(cells));
    let next = Descent {
        hash: at.hash,
        level: at.level + 1,
        first: at.first.saturating_add(at.span),
        span: at.span.saturating_mul(rule.shape.children),
        node,
    };
    (
        next,
        Tries {
            first,
            index: value % cells,
            cells,
        },
    )
}

impl PathRule for Rule {
    ghost settings = { settings_of };

    ghost extent = { λ r. r.total };

    ghost depth = { λ r. r.shape.levels };

    ghost width = { λ r. r.shape.tries };

    ghost path = { rule_path };

    ghost stage = { rule_stage };

    ghost placed = { λ r key level. refl };

    ghost laws = { rule_laws };

    fn total(&self) -> u32 {
        self.total
    }

    fn levels(&self) -> u32 {
        self.shape.levels
    }

    fn tries(&self) -> u32 {
        self.shape.tries
    }

    fn start(&self, key: &[u8; 12]) -> Descent {
        top(self, hash_of(self.shape.scheme, key))
    }

    fn descend(&self, at: &mut Descent) -> Option<Tries> {
        if at.level >= self.levels() {
            return None;
        }
        let (next, tries) = below(self, at);
        *at = next;
        Some(tries)
    }
}

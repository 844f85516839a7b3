// The walk: the first cell of a key's path that is blank or holds this key.
ghost use Rattle.std.specs.Prelude.{◌≡◌, ℕ};
ghost use Rattle.law.specs.Archive.{stop};
ghost use Rattle.walks.specs.Parts.{settings_with};

use crate::look::{Seen, look};
use keys::kind::Key;
use law::answer::Stop;
use paths::path::PathRule;
use stores::store::Store;

// Hashes once a level, reads only the cells that it probes, and allocates nothing.
pub fn walk<S: Store, P: PathRule, K: Key>(store: &S, rule: &P, key: &[u8; 12]) -> Stop
    ensures { (groups : ℕ) → result ≡ stop (settings_with K.Key P.PathRule rule.now groups) (S.Store.cell store.now) key.now }
{
    let width = rule.tries();
    let mut at = rule.start(key);
    let mut probes = 0;
    'walk: {
        while let Some(tries) = rule.descend(&mut at) {
            for j in 0..width {
                let cell = tries.cell(j);
                probes += 1;
                match look::<S, K>(store, cell, key) {
                    Seen::Blank => break 'walk Stop::AtBlank { cell, probes },
                    Seen::Own(entry) => break 'walk Stop::AtEntry {
                        cell,
                        probes,
                        entry,
                    },
                    Seen::Other => {}
                }
            }
        }
        Stop::AtEnd { probes }
    }
}

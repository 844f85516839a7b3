// What a walk sees in one cell.
ghost use Rattle.std.specs.Prelude.{◌≡◌};
ghost use Rattle.walks.specs.Looks.{seen_in};

use entries::cell::entry_of;
use entries::entry::Entry;
use keys::kind::Key;
use octets::compare::same_bytes;
use stores::store::Store;

#[derive(Clone, Copy)]
pub enum Seen {
    // Nothing is written here.
    Blank,
    // An entry of the key that is walked for.
    Own(Entry),
    // Anything else: an entry of another key, or no entry.
    Other,
}

// Reads one cell for a key. A cell outside the store is blank.
pub fn look<S: Store, K: Key>(store: &S, cell: u32, key: &[u8; 12]) -> Seen
    ensures { result ≡ seen_in K.Key.mark K.Key.admissible key.now (S.Store.cell store.now cell) }
{
    match store.held(cell) {
        Ok(Some(bytes)) => match entry_of::<K>(&bytes) {
            Some(entry) => {
                if same_bytes(&entry.key, key) {
                    Seen::Own(entry)
                } else {
                    Seen::Other
                }
            }
            None => Seen::Other,
        },
        Ok(None) | Err(_) => Seen::Blank,
    }
}

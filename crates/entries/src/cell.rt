// Entries and the bytes of their cells.
ghost use Rattle.std.specs.Prelude.{◌≡◌, length, IfSome, if◌then◌else◌, Some, None};
ghost use Rattle.entries.specs.Entries.{Fits, entry_bytes, entry_in, is_marked, keyed_entry};

use crate::entry::Entry;
use keys::kind::Key;
use octets::memory::InMemory;
use stores::store::CELL_LENGTH;

// The first byte of every entry.
pub const MARK: u8 = 0x45;

// Whether the first two bytes are those of an entry with this kind of key.
fn is_marked<K: Key>(mark: u8, kind: u8) -> bool
    ensures { result ≡ is_marked K.Key.mark mark kind }
{
    mark == MARK && kind == K::kind()
}

// The entry behind its mark and its kind, if the key is admissible.
fn keyed_entry<K: Key>(rest: &[u8]) -> Option<Entry>
    requires { length rest.now ≡ 22 }
    ensures { result ≡ keyed_entry K.Key.admissible rest.now }
{
    // (Not `try_from`: it would add a refusal that cannot be.)
    let mut key = [0; 12];
    key.copy_from_slice(&rest[0..12]);
    if !K::admits(&key) {
        return None;
    }
    Some(Entry {
        key,
        group: u16::read_at(rest, 12),
        slot: u32::read_at(rest, 14),
        filing: u32::read_at(rest, 18),
    })
}

// The entry that a cell holds, or nothing where its bytes are none with this kind of key. The entry's own cell is this one again.
pub fn entry_of<K: Key>(cell: &[u8]) -> Option<Entry>
    ensures value { result ≡ entry_in K.Key.mark K.Key.admissible cell.now }
    ensures back { IfSome result (λ e. entry_bytes K.Key.mark e ≡ cell.now) }
{
    if cell.len() != CELL_LENGTH {
        return None;
    }
    let [mark, kind, rest @ ..] = cell else {
        return None;
    };
    if !is_marked::<K>(*mark, *kind) {
        return None;
    }
    keyed_entry::<K>(rest)
}

// The bytes of an entry with this kind of key.
fn spelled_out(kind: u8, entry: &Entry) -> [u8; CELL_LENGTH]
    ensures value { result ≡ entry_bytes kind entry.now }
    ensures fits { Fits entry.now }
{
    let mut cell = [0; CELL_LENGTH];
    cell[0] = MARK;
    cell[1] = kind;
    cell[2..14].copy_from_slice(&entry.key);
    entry.group.write_at(&mut cell, 14);
    entry.slot.write_at(&mut cell, 16);
    entry.filing.write_at(&mut cell, 20);
    cell
}

// The cell of an entry, which reads as that entry exactly where its key is admissible.
pub fn cell_of<K: Key>(entry: &Entry) -> [u8; CELL_LENGTH]
    ensures value { result ≡ entry_bytes K.Key.mark entry.now }
    ensures back { entry_in K.Key.mark K.Key.admissible result ≡ (if K.Key.admissible entry.now.key then Some entry.now else None) }
{
    spelled_out(K::kind(), entry)
}

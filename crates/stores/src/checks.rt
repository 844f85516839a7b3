// What holds over every store: what a write leaves, and that what is written stays.
ghost use Rattle.std.specs.Prelude.{◌≡◌, ℕ, ◌≤◌, List, length, MatchResult};
ghost use Rattle.stores.specs.Cells.{Cell, write_answer, written};
ghost use Rattle.stores.specs.Writes.{Kept, Only};

use crate::fault::StoreFault;
use crate::store::Store;

// A write that is asked for.
#[derive(Clone, Copy)]
pub struct Write<'a> {
    pub cell: u32,
    pub bytes: &'a [u8],
}

// One write: accepted, it leaves that cell written with these bytes and every other as it was; refused, it leaves all.
pub fn write_one<S: Store>(store: &mut S, at: u32, bytes: &[u8]) -> Result<(), StoreFault>
    ensures value { result ≡ write_answer (S.cells store.old) (S.cell store.old) (S.takes store.old) at bytes.now }
    ensures leaves { MatchResult result (λ _. Only (S.cell store.old) (S.cell store.new) at bytes.now) (λ _. store.new ≡ store.old) }
{
    store.write(at, bytes)
}

// Any list of writes, accepted or not, and how many were: a written cell never changes again. (A `for`, and no `filter` and
// `count`: what a closure leaves of a store that it writes is not known.)
pub fn write_each<S: Store>(store: &mut S, writes: &[Write]) -> usize
    ensures kept { Kept (S.cell store.old) (S.cell store.new) }
    ensures size { S.cells store.new ≡ S.cells store.old }
    ensures bound { result ≤ length writes.now }
{
    let mut accepted = 0;
    for write in writes {
        if store.write(write.cell, write.bytes).is_ok() {
            accepted += 1;
        }
    }
    accepted
}

// A join: the cells of one store, then those of another, shown as one store.
ghost use Rattle.std.specs.Prelude.{◌+◌, ◌≤◌};
ghost use Rattle.stores.specs.Laws.{largest_store};

use stores::fault::{SetUpFault, StoreFault, seen_from_above};
use stores::store::{LARGEST_STORE, Store};

#[derive(Drop)]
pub struct Join<S: Store, T: Store> {
    pub(crate) first: S,
    pub(crate) second: T,
    // Both have no more cells than a store may.
    ghost few: { S.cells first + T.cells second ≤ largest_store },
}

// Two stores that could not be joined, and why.
#[derive(Drop)]
pub struct NoJoin<S, T> {
    pub first: S,
    pub second: T,
    pub fault: SetUpFault,
}

impl<S: Store, T: Store> Join<S, T> {
    ghost use Rattle.std.specs.Prelude.{◌≡◌, Ok, Err, MatchResult};
    ghost use Rattle.piles.specs.Joins.{join_fit};

    // Both stores as one; 3 SIZE where they have more cells than a store may, and the stores back.
    pub fn new(first: S, second: T) -> Result<Join<S, T>, NoJoin<S, T>>
        ensures { MatchResult result (λ j. (join_fit (S.Store.cells first) (T.Store.cells second) ≡ Ok tt) × (j.first ≡ first) × (j.second ≡ second)) (λ e. (join_fit (S.Store.cells first) (T.Store.cells second) ≡ Err e.fault) × (e.first ≡ first) × (e.second ≡ second)) }
    {
        if u64::from(first.size()) + u64::from(second.size()) > u64::from(LARGEST_STORE) {
            return Err(NoJoin {
                first,
                second,
                fault: SetUpFault::Size,
            });
        }
        Ok(Join { first, second })
    }

    // The two stores, to look at.
    pub fn first(&self) -> &S
        ensures { result.now ≡ self.now.first }
    {
        &self.first
    }

    pub fn second(&self) -> &T
        ensures { result.now ≡ self.now.second }
    {
        &self.second
    }

    // The two stores, given back.
    pub fn into_parts(self) -> (S, T)
        ensures { (result.0 ≡ self.first) × (result.1 ≡ self.second) }
    {
        (self.first, self.second)
    }
}

impl<S: Store, T: Store> Store for Join<S, T> {
    ghost use Rattle.piles.specs.JoinLaws.{join_laws};
    ghost use Rattle.piles.specs.Joins.{join_cells, join_cell, join_takes};

    ghost cells = { λ j. join_cells (S.Store.cells j.first) (T.Store.cells j.second) };

    ghost cell = { λ j. join_cell (S.Store.cells j.first) (T.Store.cells j.second) (S.Store.cell j.first) (T.Store.cell j.second) };

    ghost takes = { λ j. join_takes (S.Store.cells j.first) (T.Store.cells j.second) (S.Store.takes j.first) (T.Store.takes j.second) };

    ghost laws = { join_laws S.Store.laws T.Store.laws };

    fn size(&self) -> u32 {
        self.first.size() + self.second.size()
    }

    fn can_take(&self, at: u32) -> bool {
        match at.checked_sub(self.first.size()) {
            None => self.first.can_take(at),
            Some(behind) => self.second.can_take(behind),
        }
    }

    fn read(&self, at: u32, buffer: &mut [u8]) -> Result<bool, StoreFault> {
        self.check(at, buffer.len())?;
        match at.checked_sub(self.first.size()) {
            None => self.first.read(at, buffer),
            Some(behind) => self.second.read(behind, buffer),
        }
    }

    fn write(&mut self, at: u32, bytes: &[u8]) -> Result<(), StoreFault> {
        self.check(at, bytes.len())?;
        match at.checked_sub(self.first.size()) {
            None => self.first.write(at, bytes),
            Some(behind) => seen_from_above(self.second.write(behind, bytes), at),
        }
    }
}

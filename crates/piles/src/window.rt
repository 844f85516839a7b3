// A window: a run of cells of any store, shown as a store.
ghost use Rattle.std.specs.Prelude.{◌+◌, ◌≤◌};

use stores::fault::{SetUpFault, StoreFault, seen_from_above};
use stores::store::Store;

#[derive(Drop)]
pub struct Window<S: Store> {
    pub(crate) below: S,
    pub(crate) first: u32,
    pub(crate) count: u32,
    // It ends inside the store below.
    ghost inside: { first + count ≤ S.cells below },
}

// A store that could not be shown so, and why.
#[derive(Drop)]
pub struct NoWindow<S> {
    pub below: S,
    pub fault: SetUpFault,
}

impl<S: Store> Window<S> {
    ghost use Rattle.std.specs.Prelude.{◌≡◌, Ok, Err, MatchResult};
    ghost use Rattle.piles.specs.Windows.{window_fit};

    // So many cells from one on; 1 SETTING for none, 3 SIZE past the end, and the store back.
    pub fn new(below: S, first: u32, count: u32) -> Result<Window<S>, NoWindow<S>>
        ensures { MatchResult result (λ w. (window_fit first count (S.cells below) ≡ Ok tt) × (w.below ≡ below) × (w.first ≡ first) × (w.count ≡ count)) (λ e. (window_fit first count (S.cells below) ≡ Err e.fault) × (e.below ≡ below)) }
    {
        let size = below.size();
        if count == 0 {
            return Err(NoWindow {
                below,
                fault: SetUpFault::Setting,
            });
        }
        if first > size || count > size - first {
            return Err(NoWindow {
                below,
                fault: SetUpFault::Size,
            });
        }
        Ok(Window {
            below,
            first,
            count,
        })
    }

    // The store below, to look at.
    pub fn below(&self) -> &S
        ensures { result.now ≡ self.now.below }
    {
        &self.below
    }

    // The store below, given back.
    pub fn into_below(self) -> S
        ensures { result ≡ self.below }
    {
        self.below
    }
}

impl<S: Store> Store for Window<S> {
    ghost use Rattle.piles.specs.WindowLaws.{window_laws};
    ghost use Rattle.piles.specs.Windows.{window_cells, window_cell, window_takes};

    ghost cells = { λ w. window_cells w.first w.count (S.Store.cells w.below) };

    ghost cell = { λ w. window_cell w.first w.count (S.Store.cells w.below) (S.Store.cell w.below) };

    ghost takes = { λ w. window_takes w.first w.count (S.Store.cells w.below) (S.Store.takes w.below) };

    ghost laws = { window_laws S.Store.laws };

    fn size(&self) -> u32 {
        self.count
    }

    fn can_take(&self, at: u32) -> bool {
        at < self.count && self.below.can_take(self.first + at)
    }

    fn read(&self, at: u32, buffer: &mut [u8]) -> Result<bool, StoreFault> {
        self.check(at, buffer.len())?;
        self.below.read(self.first + at, buffer)
    }

    fn write(&mut self, at: u32, bytes: &[u8]) -> Result<(), StoreFault> {
        self.check(at, bytes.len())?;
        seen_from_above(self.below.write(self.first + at, bytes), at)
    }
}

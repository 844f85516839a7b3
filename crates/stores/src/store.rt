// What a store is.
ghost use Rattle.std.specs.Prelude.{◌≡◌, ℕ, Bool, length};
ghost use Rattle.stores.specs.Cells.{Cell, check_answer, held_answer, read_answer, read_fill};
ghost use Rattle.stores.specs.Done.{WriteDone};
ghost use Rattle.stores.specs.Laws.{StoreLaws};

use crate::fault::StoreFault;

// The bytes of a cell.
pub const CELL_LENGTH: usize = 24;

// The most cells of a store.
pub const LARGEST_STORE: u32 = 1048576;

// Cells that are written once.
pub trait Store {
    // How many cells there are.
    ghost cells: { Self → ℕ };

    // What each holds.
    ghost cell: { Self → ℕ → Cell };

    // Whether it can be taken now.
    ghost takes: { Self → ℕ → Bool };

    ghost laws: { StoreLaws cells cell takes };

    fn size(&self) -> u32
        ensures { result ≡ cells self.now };

    fn can_take(&self, at: u32) -> bool
        ensures { result ≡ takes self.now at };

    // Fills the buffer with the cell, or with zeros where it is blank, and says whether it is written. The rules let the
    // reader lend a buffer of any length, so the flag stands beside it; `held` gives both as one.
    fn read(&self, at: u32, buffer: &mut [u8]) -> Result<bool, StoreFault>
        ensures value { result ≡ read_answer (cells self.now) (cell self.now) at (length buffer.old) }
        ensures after { buffer.new ≡ read_fill (cells self.now) (cell self.now) at buffer.old };

    // Writes a cell that can be taken; refused, it leaves the store as it was.
    fn write(&mut self, at: u32, bytes: &[u8]) -> Result<(), StoreFault>
        ensures done { WriteDone cells cell takes self.old self.new at bytes.now result };

    // What every read and write looks at first: 14 LENGTH, then 11 BEYOND.
    fn check(&self, at: u32, long: usize) -> Result<(), StoreFault>
        ensures { result ≡ check_answer (cells self.now) at long }
    {
        if long != CELL_LENGTH {
            return Err(StoreFault::Length);
        }
        if at >= self.size() {
            return Err(StoreFault::Beyond(at));
        }
        Ok(())
    }

    // The bytes of a cell, or nothing where it is blank.
    fn held(&self, at: u32) -> Result<Option<[u8; CELL_LENGTH]>, StoreFault>
        ensures { result ≡ held_answer (cells self.now) (cell self.now) at }
    {
        let mut bytes = [0; CELL_LENGTH];
        let written = self.read(at, &mut bytes)?;
        Ok(written.then_some(bytes))
    }
}

// A plate: for each cell a flag and its bytes, in memory that the caller lends.
ghost use Rattle.std.specs.Prelude.{◌*◌, ◌≤◌, length};
ghost use Rattle.stores.specs.Laws.{largest_store};

use crate::memory::put;
use stores::fault::StoreFault;
use stores::store::Store;

#[derive(Drop)]
pub struct Plate<'a> {
    pub(crate) memory: &'a mut [u8],
    pub(crate) count: u32,
    // Its cells are no more than a store may have, and memory holds them.
    ghost few: { count ≤ largest_store },
    ghost fits: { 25 * count ≤ length memory.now },
}

impl<'a> Store for Plate<'a> {
    ghost use Rattle.std.specs.Prelude.{◌≡◌, MatchResult};
    ghost use Rattle.stores.specs.Done.{WriteDone};
    ghost use Rattle.plates.specs.PlateLaws.{cell_of, cells_of, plate_laws, takes_of};
    ghost use Rattle.plates.specs.Plates.{Plated};

    ghost cells = { cells_of };

    ghost cell = { cell_of };

    ghost takes = { takes_of };

    ghost laws = { plate_laws };

    fn size(&self) -> u32 {
        self.count
    }

    fn can_take(&self, at: u32) -> bool {
        at < self.count && self.memory[25 * at as usize] == 0
    }

    fn read(&self, at: u32, buffer: &mut [u8]) -> Result<bool, StoreFault> {
        self.check(at, buffer.len())?;
        let first = 25 * at as usize;
        if self.memory[first] == 0 {
            buffer.fill(0);
            return Ok(false);
        }
        buffer.copy_from_slice(&self.memory[first + 1..first + 25]);
        Ok(true)
    }

    // Accepted, it changes the 25 bytes of that cell; refused, no byte at all.
    fn write(&mut self, at: u32, bytes: &[u8]) -> Result<(), StoreFault>
        ensures done { WriteDone cells_of cell_of takes_of self.old self.new at bytes.now result }
        ensures bytes { MatchResult result (λ _. Plated self.old.memory.now self.new.memory.now at bytes.now) (λ _. self.new.memory.now ≡ self.old.memory.now) }
    {
        self.check(at, bytes.len())?;
        if self.memory[25 * at as usize] != 0 {
            return Err(StoreFault::Written(at));
        }
        put(self.memory, at as usize, bytes);
        Ok(())
    }
}

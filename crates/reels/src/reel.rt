// A reel: cells with their numbers in the order of writing, in memory that the caller lends.
ghost use Rattle.std.specs.Prelude.{◌+◌, ◌*◌, ◌≤◌, length};
ghost use Rattle.stores.specs.Laws.{largest_store};

use crate::lines::place;
use octets::memory::InMemory;
use stores::fault::StoreFault;
use stores::store::Store;

#[derive(Drop)]
pub struct Reel<'a> {
    pub(crate) memory: &'a mut [u8],
    pub(crate) cells: u32,
    pub(crate) lines: u32,
    // Its cells and lines are no more than a store may have, and memory holds the count and the lines.
    ghost few: { cells ≤ largest_store },
    ghost few_lines: { lines ≤ largest_store },
    ghost fits: { 4 + 28 * lines ≤ length memory.now },
}

impl<'a> Store for Reel<'a> {
    ghost use Rattle.std.specs.Prelude.{◌≡◌, is_ok, if◌then◌else◌};
    ghost use Rattle.stores.specs.Done.{WriteDone};
    ghost use Rattle.reels.specs.ReelLaws.{cell_of, cells_of, reel_laws, takes_of};
    ghost use Rattle.reels.specs.Reels.{line_added, reel_used};

    ghost cells = { cells_of };

    ghost cell = { cell_of };

    ghost takes = { takes_of };

    ghost laws = { reel_laws };

    fn size(&self) -> u32 {
        self.cells
    }

    fn can_take(&self, at: u32) -> bool {
        at < self.cells && self.find(at).is_none() && self.used() < self.lines
    }

    fn read(&self, at: u32, buffer: &mut [u8]) -> Result<bool, StoreFault> {
        self.check(at, buffer.len())?;
        let Some(line) = self.find(at) else {
            buffer.fill(0);
            return Ok(false);
        };
        let first = place(line as u32);
        buffer.copy_from_slice(&self.memory[first + 4..first + 28]);
        Ok(true)
    }

    // Of all memory it changes the line behind the used ones and the count, and nothing where it is refused.
    fn write(&mut self, at: u32, bytes: &[u8]) -> Result<(), StoreFault>
        ensures done { WriteDone cells_of cell_of takes_of self.old self.new at bytes.now result }
        ensures memory { self.new.memory.now ≡ (if is_ok result then line_added (reel_used self.old.lines self.old.memory.now) at bytes.now self.old.memory.now else self.old.memory.now) }
    {
        let n = self.free_line(at, bytes)?;
        let first = place(n);
        at.write_at(self.memory, first);
        self.memory[first + 4..first + 28].copy_from_slice(bytes);
        (n + 1).write_at(self.memory, 0);
        Ok(())
    }
}

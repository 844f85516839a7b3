// A ledger: pairs with their groups in the order of the puts, in memory that the caller lends.
ghost use Rattle.std.specs.Prelude.{◌≡◌, ◌+◌, ◌*◌, ◌≤◌, length, is_ok, if◌then◌else◌};
ghost use Rattle.octets.specs.Numbers.{number_at};
ghost use Rattle.keeps.specs.Done.{PutDone, StrikeDone};
ghost use Rattle.ledgers.specs.Ledgers.{Fitting, drawn_ledger, ledger_put, ledger_struck, rows, used};

use crate::lines::{LINE, count_lines, erase_lines, locator_in, write_line};
use keeps::fault::KeepFault;
use keeps::keep::Keep;
use octets::memory::InMemory;

// The most lines of a ledger.
pub const MOST_LINES: u32 = 65536;

#[derive(Drop)]
pub struct Ledger<'a> {
    pub(crate) memory: &'a mut [u8],
    pub(crate) groups: u32,
    pub(crate) lines: u32,
    // The numbers are in range, and memory is long enough for them.
    ghost fits: { Fitting groups lines (length memory.now) },
}

impl<'a> Ledger<'a> {
    // How many puts the count behind the states says.
    fn count(&self) -> u32
        ensures { result ≡ number_at self.now.memory.now self.now.groups 4 }
    {
        u32::read_at(self.memory, self.groups as usize)
    }

    // How many lines are used; a count above the lines stands for all of them.
    fn used(&self) -> u32
        ensures { result ≡ used self.now.groups self.now.lines self.now.memory.now }
    {
        self.count().min(self.lines)
    }

    // Where line j begins.
    fn line_start(&self, j: u32) -> usize
        ensures { result ≡ self.now.groups + 4 + j * 14 }
    {
        self.groups as usize + 4 + j as usize * LINE
    }

    // The used lines.
    fn used_lines(&self) -> &[[u8; LINE]]
        ensures few { length result.now ≤ self.now.lines }
        ensures value { result.now ≡ rows (self.now.groups + 4) self.now.memory.now (used self.now.groups self.now.lines self.now.memory.now) }
    {
        let lines = &self.memory[self.line_start(0)..self.line_start(self.used())];
        lines.as_chunks::<LINE>().0
    }
}

impl<'a> Keep for Ledger<'a> {
    ghost use Rattle.ledgers.specs.LedgerLaws.{bytes_of, groups_of, ledger_laws, numbers_of, pairs_in, room_of};

    ghost groups = { groups_of };

    ghost pairs = { pairs_in };

    ghost room = { room_of };

    ghost numbers = { numbers_of };

    ghost bytes = { bytes_of };

    ghost drawn = { drawn_ledger };

    ghost laws = { ledger_laws };

    fn group_count(&self) -> u16 {
        self.groups as u16
    }

    fn check(&self, group: u16) -> Result<(), KeepFault> {
        if u32::from(group) >= self.groups {
            return Err(KeepFault::Group(group));
        }
        if self.memory[group as usize] != 0 {
            return Err(KeepFault::Gone(group));
        }
        Ok(())
    }

    fn has_room(&self, group: u16) -> bool {
        self.check(group).is_ok() && self.count() < self.lines
    }

    fn get(&self, group: u16, slot: u32, cell: u32) -> Result<u64, KeepFault> {
        self.check(group)?;
        locator_in(self.used_lines(), group, slot, cell)
    }

    // Of all memory it changes the line behind the used ones and the count, and nothing where it is refused.
    fn put(&mut self, group: u16, cell: u32, locator: u64) -> Result<u32, KeepFault>
        ensures done { PutDone groups_of pairs_in room_of numbers_of bytes_of drawn_ledger self.old self.new group cell locator result }
        ensures memory { self.new.memory.now ≡ (if is_ok result then ledger_put self.old.groups self.old.memory.now group cell locator else self.old.memory.now) }
    {
        self.check(group)?;
        let count = self.count();
        if count >= self.lines {
            return Err(KeepFault::NoSlot(group));
        }
        let slot = count_lines(self.used_lines(), group) as u32;
        let start = self.line_start(count);
        write_line(self.memory, start, group, cell, locator);
        (count + 1).write_at(self.memory, self.groups as usize);
        Ok(slot)
    }

    // Of all memory it changes the group's used lines and its state, and nothing where it is refused.
    fn strike(&mut self, group: u16) -> Result<u32, KeepFault>
        ensures done { StrikeDone groups_of pairs_in numbers_of bytes_of drawn_ledger self.old self.new group result }
        ensures memory { self.new.memory.now ≡ (if is_ok result then ledger_struck self.old.groups self.old.lines self.old.memory.now group else self.old.memory.now) }
    {
        self.check(group)?;
        let had = count_lines(self.used_lines(), group) as u32;
        let (start, n) = (self.line_start(0), self.used());
        erase_lines(self.memory, start, n, group);
        self.memory[group as usize] = 1;
        Ok(had)
    }
}

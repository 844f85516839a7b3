// Blocks as a keep.
ghost use Rattle.std.specs.Prelude.{◌≡◌, ◌+◌, ◌≤◌, ◌*◌, ◌<◌, length, is_ok, if◌then◌else◌};
ghost use Rattle.keeps.specs.Done.{PutDone, StrikeDone};
ghost use Rattle.blocks.specs.Blocks.{Fitting, block_of, block_size, blocks_put, blocks_struck};
ghost use Rattle.blocks.specs.Drawing.{drawn_blocks};

use crate::block::{RETIRED, add, locator_in, used, wipe};
use crate::memory::block_size;
use keeps::fault::KeepFault;
use keeps::keep::Keep;
use octets::memory::InMemory;
use std::ops::Range;

#[derive(Drop)]
pub struct Blocks<'a> {
    pub(crate) memory: &'a mut [u8],
    pub(crate) groups: u32,
    pub(crate) slots: u32,
    // The numbers are in range, and memory holds so many groups of so many slots.
    ghost fits: { Fitting groups slots (length memory.now) },
}

impl<'a> Blocks<'a> {
    // Where the block of a group lies.
    fn place_of(&self, group: u16) -> Range<usize>
        requires { group < self.now.groups }
        ensures first { result.start ≡ group * block_size self.now.slots }
        ensures last { result.end ≡ group * block_size self.now.slots + block_size self.now.slots }
        ensures inside { result.end ≤ length self.now.memory.now }
    {
        let start = group as usize * block_size(self.slots);
        start..start + block_size(self.slots)
    }

    // The block of a group.
    fn block_of(&self, group: u16) -> &[u8]
        requires { group < self.now.groups }
        ensures { result.now ≡ block_of self.now.slots self.now.memory.now group }
    {
        &self.memory[self.place_of(group)]
    }
}

impl<'a> Keep for Blocks<'a> {
    ghost use Rattle.blocks.specs.BlocksLaws.{blocks_laws, bytes_of, groups_of, numbers_of, pairs_of, room_of};

    ghost groups = { groups_of };

    ghost pairs = { pairs_of };

    ghost room = { room_of };

    ghost numbers = { numbers_of };

    ghost bytes = { bytes_of };

    ghost drawn = { drawn_blocks };

    ghost laws = { blocks_laws };

    fn group_count(&self) -> u16 {
        self.groups as u16
    }

    fn check(&self, group: u16) -> Result<(), KeepFault> {
        if u32::from(group) >= self.groups {
            return Err(KeepFault::Group(group));
        }
        if u32::read_at(self.block_of(group), 0) == RETIRED {
            return Err(KeepFault::Gone(group));
        }
        Ok(())
    }

    fn has_room(&self, group: u16) -> bool {
        u32::from(group) < self.groups && u32::read_at(self.block_of(group), 0) < self.slots
    }

    fn get(&self, group: u16, slot: u32, cell: u32) -> Result<u64, KeepFault> {
        self.check(group)?;
        locator_in(self.block_of(group), self.slots, slot, cell)
    }

    // Of all memory it changes the block of the group, and nothing where it is refused.
    fn put(&mut self, group: u16, cell: u32, locator: u64) -> Result<u32, KeepFault>
        ensures done { PutDone groups_of pairs_of room_of numbers_of bytes_of drawn_blocks self.old self.new group cell locator result }
        ensures memory { self.new.memory.now ≡ (if is_ok result then blocks_put self.old.slots self.old.memory.now group (record { cell = cell; locator = locator }) else self.old.memory.now) }
    {
        self.check(group)?;
        let place = self.place_of(group);
        let block = &mut self.memory[place];
        add(block, self.slots, cell, locator).ok_or(KeepFault::NoSlot(group))
    }

    // Of all memory it changes the block of the group, and nothing where it is refused.
    fn strike(&mut self, group: u16) -> Result<u32, KeepFault>
        ensures done { StrikeDone groups_of pairs_of numbers_of bytes_of drawn_blocks self.old self.new group result }
        ensures memory { self.new.memory.now ≡ (if is_ok result then blocks_struck self.old.slots self.old.memory.now group else self.old.memory.now) }
    {
        self.check(group)?;
        let place = self.place_of(group);
        let block = &mut self.memory[place];
        let pairs = used(block, self.slots);
        wipe(block, self.slots);
        Ok(pairs)
    }
}

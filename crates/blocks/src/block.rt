// The block of one group.
// (Records by their places, and no arrays: a put writes one record, and of what arrays lend for writing only the length is known.)
ghost use Rattle.std.specs.Prelude.{◌≡◌, ◌+◌, length, is_some, if◌then◌else◌};
ghost use Rattle.keeps.specs.Groups.{in_slot};
ghost use Rattle.blocks.specs.Blocks.{block_gone, block_put, block_size, free_slot, pairs_in, used_in};

use keeps::fault::KeepFault;
use octets::memory::InMemory;

// In place of the count, once a group is retired.
pub(crate) const RETIRED: u32 = u32::MAX;

// How many slots are used; a count above the slots stands for all of them.
pub(crate) fn used(block: &[u8], slots: u32) -> u32
    ensures { result ≡ used_in slots block.now }
{
    u32::read_at(block, 0).min(slots)
}

// The locator in a slot, if that was put for the cell.
#[tactic(auto, using(crate::proofs::Single::slot_unused, crate::proofs::Single::slot_used, std::proofs::lemmas::Bool::Decides::nat_tests))]
pub(crate) fn locator_in(block: &[u8], slots: u32, slot: u32, cell: u32) -> Result<u64, KeepFault>
    ensures { result ≡ in_slot (pairs_in block.now (used_in slots block.now)) slot cell }
{
    let at = 12 * slot as usize;
    let held = u32::read_at(block, 4 + at);
    if slot >= used(block, slots) || held != cell {
        return Err(KeepFault::Stranger(cell));
    }
    Ok(u64::read_at(block, 8 + at))
}

// Adds a pair, and gives its slot; nothing where every slot is used.
pub(crate) fn add(block: &mut [u8], slots: u32, cell: u32, locator: u64) -> Option<u32>
    requires { length block.old ≡ block_size slots }
    ensures value { result ≡ free_slot slots block.old }
    ensures after { block.new ≡ (if is_some result then block_put block.old (record { cell = cell; locator = locator }) else block.old) }
{
    let count = u32::read_at(block, 0);
    if count >= slots {
        return None;
    }
    let at = 4 + 12 * count as usize;
    cell.write_at(block, at);
    locator.write_at(block, at + 4);
    (count + 1).write_at(block, 0);
    Some(count)
}

// Wipes the records and marks the group retired.
pub(crate) fn wipe(block: &mut [u8], slots: u32)
    requires { length block.old ≡ block_size slots }
    ensures { block.new ≡ block_gone slots }
{
    block.fill(0);
    RETIRED.write_at(block, 0);
}

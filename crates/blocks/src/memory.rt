// The numbers that blocks may have, and the memory that they take.
ghost use Rattle.std.specs.Prelude.{◌≡◌, Ok, Err, MatchResult, OnOk};
ghost use Rattle.blocks.specs.Blocks.{Fitting, block_size, blocks_fit, blocks_size};

use keeps::keep::MOST_GROUPS;
use stores::fault::SetUpFault;

// The most slots of a group.
const MOST_SLOTS: u32 = 65535;

// The bytes of one block.
pub(crate) fn block_size(slots: u32) -> usize
    ensures { result ≡ block_size slots }
{
    4 + 12 * slots as usize
}

// How many bytes so many groups of so many slots take, where memory of so many bytes holds them.
pub(crate) fn fit(groups: u32, slots: u32, bytes: usize) -> Result<usize, SetUpFault>
    ensures value { MatchResult result (λ n. (n ≡ blocks_size groups slots) × (blocks_fit groups slots bytes ≡ Ok tt)) (λ f. blocks_fit groups slots bytes ≡ Err f) }
    ensures enough { OnOk result (Fitting groups slots bytes) }
{
    if !(1..=MOST_GROUPS).contains(&groups) || !(1..=MOST_SLOTS).contains(&slots) {
        return Err(SetUpFault::Setting);
    }
    let size = groups as usize * block_size(slots);
    if size > bytes {
        return Err(SetUpFault::Size);
    }
    Ok(size)
}

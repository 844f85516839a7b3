// Setting blocks up in lent memory, and opening them.
ghost use Rattle.std.specs.Prelude.{◌≡◌, ℕ, ◌<◌, [], ◌∷◌, length, take, is_ok, IfOk, if◌then◌else◌, Ok, Err, MatchResult};
ghost use Rattle.octets.specs.Overwriting.{zeroed};
ghost use Rattle.keeps.specs.Groups.{live};
ghost use Rattle.keeps.specs.History.{none_gone};
ghost use Rattle.blocks.specs.Blocks.{blocks_fit, blocks_pairs, blocks_size};
ghost use Rattle.blocks.specs.Drawing.{drawn_blocks};

use crate::keep::Blocks;
use crate::memory::fit;
use stores::fault::SetUpFault;

// Zeroes the bytes that so many groups of so many slots need, and no others.
// (Every make sets up so, by its own numbers and its own test: what they share is the two lines below.)
pub fn clear(memory: &mut [u8], groups: u32, slots: u32) -> Result<(), SetUpFault>
    ensures value { result ≡ blocks_fit groups slots (length memory.old) }
    ensures after { memory.new ≡ (if is_ok result then zeroed (blocks_size groups slots) memory.old else memory.old) }
{
    let size = fit(groups, slots, memory.len())?;
    memory[..size].fill(0);
    Ok(())
}

impl<'a> Blocks<'a> {
    // Blocks with every group live and empty; 1 SETTING, then 3 SIZE, and memory untouched.
    pub fn set_up(memory: &'a mut [u8], groups: u32, slots: u32) -> Result<Blocks<'a>, SetUpFault>
        ensures made { MatchResult result (λ b. (blocks_fit groups slots (length memory.old) ≡ Ok tt) × (b.groups ≡ groups) × (b.slots ≡ slots) × (b.memory.now ≡ zeroed (blocks_size groups slots) memory.old)) (λ f. blocks_fit groups slots (length memory.old) ≡ Err f) }
        ensures blank { IfOk result (λ b. (take (blocks_size groups slots) b.memory.now ≡ drawn_blocks (groups ∷ (slots ∷ [])) [] none_gone) × ((i : ℕ) → i < groups → blocks_pairs groups slots b.memory.now i ≡ live [])) }
    {
        clear(memory, groups, slots)?;
        Ok(Blocks {
            memory,
            groups,
            slots,
        })
    }

    // The blocks that are in memory, whatever that holds.
    pub fn open(memory: &'a mut [u8], groups: u32, slots: u32) -> Result<Blocks<'a>, SetUpFault>
        ensures { MatchResult result (λ b. (blocks_fit groups slots (length memory.old) ≡ Ok tt) × (b.groups ≡ groups) × (b.slots ≡ slots) × (b.memory.now ≡ memory.old)) (λ f. blocks_fit groups slots (length memory.old) ≡ Err f) }
    {
        fit(groups, slots, memory.len())?;
        Ok(Blocks {
            memory,
            groups,
            slots,
        })
    }
}

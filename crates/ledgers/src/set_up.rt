// Setting a ledger up in lent memory, and opening one.
ghost use Rattle.std.specs.Prelude.{◌≡◌, ℕ, ◌<◌, [], ◌∷◌, length, take, is_ok, IfOk, if◌then◌else◌, Ok, Err, MatchResult};
ghost use Rattle.octets.specs.Overwriting.{zeroed};
ghost use Rattle.keeps.specs.Groups.{live};
ghost use Rattle.keeps.specs.History.{none_gone};
ghost use Rattle.ledgers.specs.Ledgers.{drawn_ledger, ledger_fit, ledger_pairs, ledger_size};

use crate::fit::fit;
use crate::ledger::Ledger;
use stores::fault::SetUpFault;

// Zeroes the bytes of a ledger of so many groups and lines, and no others.
// (Every make sets up so, by its own numbers and its own test: what they share is the two lines below.)
pub fn clear(memory: &mut [u8], groups: u32, lines: u32) -> Result<(), SetUpFault>
    ensures value { result ≡ ledger_fit groups lines (length memory.old) }
    ensures after { memory.new ≡ (if is_ok result then zeroed (ledger_size groups lines) memory.old else memory.old) }
{
    let size = fit(groups, lines, memory.len())?;
    memory[..size].fill(0);
    Ok(())
}

impl<'a> Ledger<'a> {
    // A blank ledger; 1 SETTING, then 3 SIZE, and memory untouched.
    pub fn set_up(memory: &'a mut [u8], groups: u32, lines: u32) -> Result<Ledger<'a>, SetUpFault>
        ensures made { MatchResult result (λ k. (ledger_fit groups lines (length memory.old) ≡ Ok tt) × (k.groups ≡ groups) × (k.lines ≡ lines) × (k.memory.now ≡ zeroed (ledger_size groups lines) memory.old)) (λ f. ledger_fit groups lines (length memory.old) ≡ Err f) }
        ensures blank { IfOk result (λ k. (take (ledger_size groups lines) k.memory.now ≡ drawn_ledger (groups ∷ (lines ∷ [])) [] none_gone) × ((i : ℕ) → i < groups → ledger_pairs groups lines k.memory.now i ≡ live [])) }
    {
        clear(memory, groups, lines)?;
        Ok(Ledger {
            memory,
            groups,
            lines,
        })
    }

    // The ledger that is in memory, whatever that holds.
    pub fn open(memory: &'a mut [u8], groups: u32, lines: u32) -> Result<Ledger<'a>, SetUpFault>
        ensures { MatchResult result (λ k. (ledger_fit groups lines (length memory.old) ≡ Ok tt) × (k.groups ≡ groups) × (k.lines ≡ lines) × (k.memory.now ≡ memory.old)) (λ f. ledger_fit groups lines (length memory.old) ≡ Err f) }
    {
        fit(groups, lines, memory.len())?;
        Ok(Ledger {
            memory,
            groups,
            lines,
        })
    }
}

// Setting a plate up in lent memory, and opening one.
ghost use Rattle.std.specs.Prelude.{◌≡◌, ◌*◌, ◌≤◌, length, is_ok, if◌then◌else◌, Ok, Err, MatchResult, OnOk};
ghost use Rattle.octets.specs.Overwriting.{zeroed};
ghost use Rattle.stores.specs.Laws.{largest_store};
ghost use Rattle.plates.specs.Plates.{plate_fit};

use crate::plate::Plate;
use stores::fault::SetUpFault;
use stores::store::LARGEST_STORE;

// How many bytes so many cells take, where so many bytes hold them.
fn fit(count: u32, bytes: usize) -> Result<usize, SetUpFault>
    ensures value { MatchResult result (λ size. (plate_fit count bytes ≡ Ok tt) × (size ≡ 25 * count)) (λ f. plate_fit count bytes ≡ Err f) }
    ensures enough { OnOk result ((count ≤ largest_store) × (25 * count ≤ bytes)) }
{
    if !(1..=LARGEST_STORE).contains(&count) {
        return Err(SetUpFault::Setting);
    }
    let size = 25 * count as usize;
    if size > bytes {
        return Err(SetUpFault::Size);
    }
    Ok(size)
}

// Zeroes the bytes of so many cells, and no others.
// (Every make sets up so, by its own numbers and its own test: what they share is the two lines below.)
pub fn clear(memory: &mut [u8], count: u32) -> Result<(), SetUpFault>
    ensures value { result ≡ plate_fit count (length memory.old) }
    ensures after { memory.new ≡ (if is_ok result then zeroed (25 * count) memory.old else memory.old) }
{
    let size = fit(count, memory.len())?;
    memory[..size].fill(0);
    Ok(())
}

impl<'a> Plate<'a> {
    // A blank plate; 1 SETTING, then 3 SIZE, and memory untouched.
    pub fn set_up(memory: &'a mut [u8], count: u32) -> Result<Plate<'a>, SetUpFault>
        ensures { MatchResult result (λ p. (plate_fit count (length memory.old) ≡ Ok tt) × (p.count ≡ count) × (p.memory.now ≡ zeroed (25 * count) memory.old)) (λ f. plate_fit count (length memory.old) ≡ Err f) }
    {
        clear(memory, count)?;
        Ok(Plate { memory, count })
    }

    // The plate that is in memory, whatever that holds.
    pub fn open(memory: &'a mut [u8], count: u32) -> Result<Plate<'a>, SetUpFault>
        ensures { MatchResult result (λ p. (plate_fit count (length memory.old) ≡ Ok tt) × (p.count ≡ count) × (p.memory.now ≡ memory.old)) (λ f. plate_fit count (length memory.old) ≡ Err f) }
    {
        fit(count, memory.len())?;
        Ok(Plate { memory, count })
    }
}

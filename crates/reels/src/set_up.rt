// Setting a reel up in lent memory, and opening one.
ghost use Rattle.std.specs.Prelude.{◌≡◌, ◌+◌, ◌*◌, ◌≤◌, length, is_ok, if◌then◌else◌, Ok, Err, MatchResult, OnOk};
ghost use Rattle.octets.specs.Overwriting.{zeroed};
ghost use Rattle.stores.specs.Laws.{largest_store};
ghost use Rattle.reels.specs.Reels.{reel_fit};

use crate::lines::place;
use crate::reel::Reel;
use stores::fault::SetUpFault;
use stores::store::LARGEST_STORE;

// How many bytes the count and so many lines take, where so many bytes hold them.
fn fit(cells: u32, lines: u32, bytes: usize) -> Result<usize, SetUpFault>
    ensures value { MatchResult result (λ size. (reel_fit cells lines bytes ≡ Ok tt) × (size ≡ 4 + 28 * lines)) (λ f. reel_fit cells lines bytes ≡ Err f) }
    ensures enough { OnOk result ((cells ≤ largest_store) × (lines ≤ largest_store) × (4 + 28 * lines ≤ bytes)) }
{
    let range = 1..=LARGEST_STORE;
    if !range.contains(&cells) || !range.contains(&lines) {
        return Err(SetUpFault::Setting);
    }
    let size = place(lines);
    if size > bytes {
        return Err(SetUpFault::Size);
    }
    Ok(size)
}

// Zeroes the count and the bytes of so many lines, and no others.
// (Every make sets up so, by its own numbers and its own test: what they share is the two lines below.)
pub fn clear(memory: &mut [u8], cells: u32, lines: u32) -> Result<(), SetUpFault>
    ensures value { result ≡ reel_fit cells lines (length memory.old) }
    ensures after { memory.new ≡ (if is_ok result then zeroed (4 + 28 * lines) memory.old else memory.old) }
{
    let size = fit(cells, lines, memory.len())?;
    memory[..size].fill(0);
    Ok(())
}

impl<'a> Reel<'a> {
    // A blank reel; 1 SETTING, then 3 SIZE, and memory untouched.
    pub fn set_up(memory: &'a mut [u8], cells: u32, lines: u32) -> Result<Reel<'a>, SetUpFault>
        ensures { MatchResult result (λ s. (reel_fit cells lines (length memory.old) ≡ Ok tt) × (s.cells ≡ cells) × (s.lines ≡ lines) × (s.memory.now ≡ zeroed (4 + 28 * lines) memory.old)) (λ f. reel_fit cells lines (length memory.old) ≡ Err f) }
    {
        clear(memory, cells, lines)?;
        Ok(Reel {
            memory,
            cells,
            lines,
        })
    }

    // The reel that is in memory, whatever that holds.
    pub fn open(memory: &'a mut [u8], cells: u32, lines: u32) -> Result<Reel<'a>, SetUpFault>
        ensures { MatchResult result (λ s. (reel_fit cells lines (length memory.old) ≡ Ok tt) × (s.cells ≡ cells) × (s.lines ≡ lines) × (s.memory.now ≡ memory.old)) (λ f. reel_fit cells lines (length memory.old) ≡ Err f) }
    {
        fit(cells, lines, memory.len())?;
        Ok(Reel {
            memory,
            cells,
            lines,
        })
    }
}

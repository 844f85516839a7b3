// The lines of a reel.
ghost use Rattle.std.specs.Prelude.{◌≡◌, ◌==◌, ◌+◌, ◌*◌, ◌<◌, take, drop, position, Ok, Err, IfOk, IfSome, MatchResult};
ghost use Rattle.std.specs.Simd.{first_chunks};
ghost use Rattle.octets.specs.Numbers.{number_at};
ghost use Rattle.stores.specs.Cells.{write_answer};
ghost use Rattle.reels.specs.Reels.{FreeLine, found, reel_cell, reel_cells, reel_takes, reel_used};

use crate::reel::Reel;
use octets::memory::InMemory;
use stores::fault::StoreFault;
use stores::store::Store;

// The bytes of a line.
const LINE: usize = 28;

// Where a line begins: behind the count and the lines before it.
// (A line is written by its place, and not as an array: of what arrays lend for writing only the length is known.)
pub(crate) fn place(line: u32) -> usize
    ensures { result ≡ 4 + 28 * line }
{
    4 + LINE * line as usize
}

// The first of these lines with the cell's number. (Of an array the compiler knows how long it is: a number in it is read at once.)
fn first_with(lines: &[[u8; LINE]], cell: u32) -> Option<usize>
    ensures { result ≡ position (λ line. number_at line 0 4 == cell) lines.now }
{
    lines.iter().position(|line| u32::read_at(line, 0) == cell)
}

impl<'a> Reel<'a> {
    // How many lines are used.
    pub(crate) fn used(&self) -> u32
        ensures { result ≡ reel_used self.now.lines self.now.memory.now }
    {
        u32::read_at(self.memory, 0).min(self.lines)
    }

    // The used lines.
    fn used_lines(&self) -> &[[u8; LINE]]
        ensures { result.now ≡ first_chunks 28 (reel_used self.now.lines self.now.memory.now) (take (reel_used self.now.lines self.now.memory.now * 28) (drop 4 self.now.memory.now)) }
    {
        let lines = &self.memory[place(0)..place(self.used())];
        lines.as_chunks::<LINE>().0
    }

    // The first used line with the cell's number, looked for from the first line on: an index would take memory
    // of its own, and a reel has only what the caller lends.
    pub(crate) fn find(&self, cell: u32) -> Option<usize>
        ensures value { result ≡ found self.now.memory.now cell (reel_used self.now.lines self.now.memory.now) }
        ensures below { IfSome result (λ i. i < reel_used self.now.lines self.now.memory.now) }
    {
        first_with(self.used_lines(), cell)
    }

    // The line that a write goes to, or why it is refused.
    pub(crate) fn free_line(&self, at: u32, bytes: &[u8]) -> Result<u32, StoreFault>
        ensures value { let r = self.now in let answer = write_answer (reel_cells r.cells) (reel_cell r.cells r.lines r.memory.now) (reel_takes r.cells r.lines r.memory.now) at bytes.now in MatchResult result (λ _. Ok tt ≡ answer) (λ f. Err f ≡ answer) }
        ensures line { IfOk result (λ n. FreeLine self.now.cells self.now.lines self.now.memory.now at bytes.now n) }
    {
        self.check(at, bytes.len())?;
        if self.find(at).is_some() {
            return Err(StoreFault::Written(at));
        }
        let n = self.used();
        if n >= self.lines {
            return Err(StoreFault::NoCell(at));
        }
        Ok(n)
    }
}

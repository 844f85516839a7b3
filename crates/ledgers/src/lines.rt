// The lines of a ledger.
ghost use Rattle.std.specs.Prelude.{◌≡◌, ◌+◌, ◌*◌, ◌≤◌, length, slice_get};
ghost use Rattle.std.specs.Option.{option_map};
ghost use Rattle.octets.specs.Overwriting.{overwritten};
ghost use Rattle.keeps.specs.Groups.{in_slot};
ghost use Rattle.ledgers.specs.Ledgers.{line_of, lines_struck, pair_on, pairs_of};

use keeps::fault::KeepFault;
use octets::memory::InMemory;

// The bytes of a line.
pub(crate) const LINE: usize = 14;

// How many of the lines are the group's.
pub(crate) fn count_lines(lines: &[[u8; LINE]], group: u16) -> usize
    ensures value { result ≡ length (pairs_of group lines.now) }
    ensures few { result ≤ length lines.now }
{
    lines
        .iter()
        .filter(|line| u16::read_at(*line, 0) == group)
        .count()
}

// The group's line at a slot, looked for from the first line on. An index could not be trusted: memory that is opened may
// hold any bytes.
fn find_line(lines: &[[u8; LINE]], group: u16, slot: u32) -> Option<&[u8; LINE]>
    ensures { option_map (λ line. pair_on line.now) result ≡ slice_get (pairs_of group lines.now) slot }
{
    lines
        .iter()
        .filter(|line| u16::read_at(*line, 0) == group)
        .nth(slot as usize)
}

// The locator in a slot of the group's, if that was put for the cell.
#[tactic(auto, using(keeps::proofs::Slots::slot_none))]
pub(crate) fn locator_in(
    lines: &[[u8; LINE]],
    group: u16,
    slot: u32,
    cell: u32,
) -> Result<u64, KeepFault>
    ensures { result ≡ in_slot (pairs_of group lines.now) slot cell }
{
    match find_line(lines, group, slot) {
        Some(line) if u32::read_at(line, 2) == cell => Ok(u64::read_at(line, 6)),
        _ => Err(KeepFault::Stranger(cell)),
    }
}

// Writes one line over its bytes.
// (Group, cell and locator stand together nowhere else in the code: no struct for one place.)
pub(crate) fn write_line(memory: &mut [u8], at: usize, group: u16, cell: u32, locator: u64)
    requires { at + 14 ≤ length memory.old }
    ensures { memory.new ≡ overwritten at (line_of group cell locator) memory.old }
{
    group.write_at(memory, at);
    cell.write_at(memory, at + 2);
    locator.write_at(memory, at + 6);
}

// Zeroes cell and locator of those of the n lines from a place on that are the group's.
// (Places, and no lines lent by `chunks_exact_mut`: of what is written through those only the length is known.)
pub(crate) fn erase_lines(memory: &mut [u8], first: usize, n: u32, group: u16)
    requires { first + n * 14 ≤ length memory.old }
    ensures { memory.new ≡ lines_struck first n group memory.old }
{
    for j in 0..n as usize {
        let at = first + j * LINE;
        if u16::read_at(memory, at) == group {
            write_line(memory, at, group, 0, 0);
        }
    }
}

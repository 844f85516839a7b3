// What a keep is.
ghost use Rattle.std.specs.Prelude.{◌≡◌, ℕ, Bool, List};
ghost use Rattle.keeps.specs.Done.{PutDone, StrikeDone};
ghost use Rattle.keeps.specs.Groups.{Group, check_answer, get_answer};
ghost use Rattle.keeps.specs.History.{Put};
ghost use Rattle.keeps.specs.Laws.{KeepLaws};

use crate::fault::KeepFault;

// The most groups of a keep.
pub const MOST_GROUPS: u32 = 256;

// Groups of pairs of a cell and a locator, each wiped whole.
pub trait Keep {
    // How many groups there are.
    ghost groups: { Self → ℕ };

    // What each holds.
    ghost pairs: { Self → ℕ → Group };

    // Whether it takes a pair now.
    ghost room: { Self → ℕ → Bool };

    // The numbers that it was made with, and the bytes that it holds.
    ghost numbers: { Self → List ℕ };

    ghost bytes: { Self → List ℕ };

    // The bytes of a keep of this make, by its numbers, the puts that it accepted, in order, and which groups are retired.
    ghost drawn: { List ℕ → List Put → (ℕ → Bool) → List ℕ };

    ghost laws: { KeepLaws groups pairs room drawn };

    fn group_count(&self) -> u16
        ensures { result ≡ groups self.now };

    // Whether the group is there and live.
    fn check(&self, group: u16) -> Result<(), KeepFault>
        ensures { result ≡ check_answer (groups self.now) (pairs self.now) group };

    fn has_room(&self, group: u16) -> bool
        ensures { result ≡ room self.now group };

    // The locator in a slot, if that was put for the cell.
    fn get(&self, group: u16, slot: u32, cell: u32) -> Result<u64, KeepFault>
        ensures { result ≡ get_answer (groups self.now) (pairs self.now) group slot cell };

    // Adds a pair at the end of a group, and gives its slot; refused, it leaves the keep as it was.
    fn put(&mut self, group: u16, cell: u32, locator: u64) -> Result<u32, KeepFault>
        ensures done { PutDone groups pairs room numbers bytes drawn self.old self.new group cell locator result };

    // Retires a group for good, and says how many pairs it had; refused, it leaves the keep as it was.
    fn strike(&mut self, group: u16) -> Result<u32, KeepFault>
        ensures done { StrikeDone groups pairs numbers bytes drawn self.old self.new group result };
}

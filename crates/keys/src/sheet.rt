// Sheet numbers, 0 to 2147483646.
ghost use Rattle.std.specs.Prelude.{◌≡◌, ◌<◌, ◌≤◌, MatchResult};
ghost use Rattle.keys.specs.Sheets.{largest_sheet};

use crate::fault::KeyFault;

// The largest sheet number.
pub const LARGEST_SHEET: u64 = 2147483646;

// The number of a sheet.
#[derive(Clone, Copy)]
pub struct SheetNumber {
    pub(crate) number: u32,
    ghost small: { number ≤ largest_sheet },
}

impl SheetNumber {
    // The sheet of this number; 4 KEY past the largest. (A constructor that validates, as `NonZeroU32::new` is: nothing asks for
    // it through `TryFrom`.)
    pub fn new(number: u64) -> Result<SheetNumber, KeyFault>
        ensures { MatchResult result (λ k. k.number ≡ number) (λ _. largest_sheet < number) }
    {
        if number > LARGEST_SHEET {
            return Err(KeyFault::Inadmissible);
        }
        Ok(SheetNumber {
            number: number as u32,
        })
    }

    // Its number.
    pub fn number(&self) -> u32
        ensures { result ≡ self.now.number }
    {
        self.number
    }
}

// Kind 1: sheet numbers as keys.
ghost use Rattle.std.specs.Prelude.{◌≡◌, true, false, length, MatchResult};
ghost use Rattle.keys.specs.Sheets.{sheet_bytes, sheet_admissible};
ghost use Rattle.keys.specs.SheetLaws.{sheet_laws};

use crate::fault::KeyFault;
use crate::kind::Key;
use crate::sheet::SheetNumber;
use octets::number_of;

// The kind's number.
pub const SHEET_KIND: u8 = 1;

// The sheet whose number 12 bytes spell.
fn spelled_sheet(bytes: &[u8]) -> Result<SheetNumber, KeyFault>
    requires { length bytes.now ≡ 12 }
    ensures { MatchResult result (λ k. (sheet_admissible bytes.now ≡ true) × (sheet_bytes k.number ≡ bytes.now)) (λ _. sheet_admissible bytes.now ≡ false) }
{
    match number_of(bytes) {
        Some(number) => SheetNumber::new(number),
        None => Err(KeyFault::Inadmissible),
    }
}

impl Key for SheetNumber {
    ghost mark = { 1 };

    ghost spelling = { λ s. sheet_bytes s.number };

    ghost admissible = { sheet_admissible };

    ghost laws = { sheet_laws };

    fn kind() -> u8 {
        SHEET_KIND
    }

    fn to_bytes(&self) -> [u8; 12] {
        let [a, b, c, d] = self.number.to_be_bytes();
        [0, 0, 0, 0, 0, 0, 0, 0, a, b, c, d]
    }

    fn from_bytes(bytes: &[u8]) -> Result<SheetNumber, KeyFault> {
        if bytes.len() == 12 {
            spelled_sheet(bytes)
        } else {
            Err(KeyFault::Inadmissible)
        }
    }
}

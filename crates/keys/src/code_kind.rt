// Kind 2: drawing codes as keys.
ghost use Rattle.std.specs.Prelude.{◌≡◌};
ghost use Rattle.keys.specs.Codes.{code_admissible};
ghost use Rattle.keys.specs.CodeLaws.{code_laws};

use crate::code::{DrawingCode, is_code};
use crate::fault::KeyFault;
use crate::kind::Key;

// The kind's number.
pub const CODE_KIND: u8 = 2;

impl Key for DrawingCode {
    ghost mark = { 2 };

    ghost spelling = { λ c. c.bytes };

    ghost admissible = { code_admissible };

    ghost laws = { code_laws };

    fn kind() -> u8 {
        CODE_KIND
    }

    fn to_bytes(&self) -> [u8; 12] {
        self.bytes
    }

    fn from_bytes(bytes: &[u8]) -> Result<DrawingCode, KeyFault> {
        if !is_code(bytes) {
            return Err(KeyFault::Inadmissible);
        }
        // (Not `try_from`: it would add a refusal that cannot be.)
        let mut own = [0; 12];
        own.copy_from_slice(bytes);
        Ok(DrawingCode { bytes: own })
    }
}

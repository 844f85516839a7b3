// Bytes written as hexadecimal digits of either case, two for each byte.
#![tactic(auto)]

ghost use Rattle.std.specs.Prelude.{◌≡◌, ◌<◌, IfSome, IfOk, vec_items, Some};
ghost use Rattle.std.specs.Option.{option_map};
ghost use Rattle.hex_digits.specs.Hex.{nibble_of, byte_of, bytes_of, digits_of, text_of};

use std::alloc::{AllocError, Global};
use std::fmt;

// The value of one digit.
fn nibble(digit: u8) -> Option<u8>
    ensures value { result ≡ nibble_of digit }
    ensures small { IfSome result (λ half. half < 16) }
{
    match digit {
        b'0'..=b'9' => Some(digit - b'0'),
        b'a'..=b'f' => Some(digit - b'a' + 10),
        b'A'..=b'F' => Some(digit - b'A' + 10),
        _ => None,
    }
}

// The byte that two digits write, the higher half first.
fn byte(high: u8, low: u8) -> Option<u8>
    ensures { result ≡ byte_of (nibble_of high) (nibble_of low) }
{
    Some(nibble(high)? * 16 + nibble(low)?)
}

// The bytes that digits write; nothing for an odd number of them, or where one is no digit. The kit's `hex` tells want of
// memory by a variant of its own, and no code in this crate makes an `AllocError` by hand.
pub fn from_digits(heap: Global, text: &[u8]) -> Result<Option<Vec<u8>>, AllocError>
    ensures { IfOk result (λ v. option_map vec_items v ≡ bytes_of text.now) }
{
    let (pairs, odd) = text.as_chunks::<2>();
    if !odd.is_empty() {
        return Ok(None);
    }
    let mut bytes = Vec::new(heap);
    for [high, low] in pairs {
        let Some(written) = byte(*high, *low) else {
            return Ok(None);
        };
        bytes.push(written)?;
    }
    Ok(Some(bytes))
}

// A byte that is printed as its two digits.
#[derive(Clone, Copy)]
struct HexByte(u8);

impl fmt::Display for HexByte {
    ghost output = { λ b. Some (digits_of b.0) };

    #[tactic(auto, using(std::proofs::lemmas::Fmt::hex_byte))]
    fn fmt<W: fmt::Write>(&self, f: &mut fmt::Formatter<W>) -> fmt::Result {
        let byte = self.0;
        write!(f, "{byte:02x}")
    }
}

// Bytes that are printed as digits, two for each, with letters of lower case.
#[derive(Clone, Copy)]
pub struct Hex<'a>(pub &'a [u8]);

impl fmt::Display for Hex<'_> {
    ghost output = { λ h. Some (text_of h.0.now) };

    fn fmt<W: fmt::Write>(&self, f: &mut fmt::Formatter<W>) -> fmt::Result {
        for byte in self.0 {
            f.write(HexByte(*byte))?;
        }
        Ok(())
    }
}

#[cfg(test)]
mod tests {
    use super::*;
    use std::test::Fail;

    #[test]
    fn printed_digits_write_their_bytes(rt: HostRuntime) -> Result<(), Fail> {
        let text = Hex(&[0, 15, 165, 255]).to_string(rt.alloc())?;
        assert_eq!(rt; text.as_str(), "000fa5ff");
        let bytes = from_digits(rt.alloc(), b"000Fa5fF")?.ok_or("no digits")?;
        assert_eq!(rt; bytes.as_slice(), [0, 15, 165, 255].as_slice());
        Ok(())
    }
}

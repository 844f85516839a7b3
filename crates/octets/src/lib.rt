// Numbers in bytes, highest byte first: the layout of every number of several bytes in an archive.
#![tactic(auto)]

ghost use Rattle.std.specs.Prelude.{◌≡◌, length};
ghost use Rattle.octets.specs.Numbers.{big_endian, spelled, in_64_bits};

pub mod compare;
pub mod memory;

// The number that bytes spell, or nothing where it passes 64 bits.
pub fn number_of(bytes: &[u8]) -> Option<u64>
    ensures { result ≡ in_64_bits (spelled bytes.now) }
{
    let mut number: u64 = 0;
    for b in bytes {
        if number >= 1 << 56 {
            return None;
        }
        number = number * 256 + u64::from(*b);
    }
    Some(number)
}

// Fills the bytes with the last ones of a number.
pub fn write_number(bytes: &mut [u8], value: u64)
    ensures { bytes.new ≡ big_endian (length bytes.old) value }
{
    let mut rest = value;
    // Places, and no `iter_mut().rev()`: what is written through that is not known after it.
    for i in (0..bytes.len()).rev() {
        bytes[i] = (rest % 256) as u8;
        rest /= 256;
    }
}

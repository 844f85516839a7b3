// Numbers at a place in memory. Nothing is asked of the place: what lies past the end is not read, and a number that does
// not fit is not written.
ghost use Rattle.std.specs.Prelude.{◌≡◌, ℕ, ◌+◌, ◌*◌, ◌^◌, ◌<◌, ◌≤◌, length, take, drop, if◌then◌else◌, nat_le};
ghost use Rattle.octets.specs.Numbers.{big_endian, number_at};
ghost use Rattle.octets.specs.Overwriting.{overwritten};

use crate::{number_of, write_number};

// So many bytes from a place on, or as many of them as there are.
fn part(memory: &[u8], at: usize, count: usize) -> &[u8]
    ensures value { result.now ≡ take count (drop at memory.now) }
    ensures few { length result.now ≤ count }
{
    let start = at.min(memory.len());
    let end = start + count.min(memory.len() - start);
    &memory[start..end]
}

// The number that up to 8 bytes from a place on spell.
fn number_from(memory: &[u8], at: usize, count: usize) -> u64
    requires { count ≤ 8 }
    ensures value { result ≡ number_at memory.now at count }
    ensures small { result < 2 ^ (count * 8) }
{
    number_of(part(memory, at, count)).unwrap_or(0)
}

// A type of numbers that stand in memory in so many bytes.
pub trait InMemory: Copy {
    // How many bytes.
    ghost width: { ℕ };

    // The number that a value is.
    ghost value: { Self → ℕ };

    // The one that the bytes from a place on spell.
    fn read_at(memory: &[u8], at: usize) -> Self
        ensures { value result ≡ number_at memory.now at width };

    // Its bytes over those from a place on; false, and nothing written, where memory ends before.
    fn write_at(self, memory: &mut [u8], at: usize) -> bool
        ensures fits { result ≡ nat_le (at + width) (length memory.old) }
        ensures after { memory.new ≡ (if result then overwritten at (big_endian width (value self)) memory.old else memory.old) };
}

impl InMemory for u16 {
    ghost width = { 2 };

    ghost value = { λ n. n };

    fn read_at(memory: &[u8], at: usize) -> u16 {
        number_from(memory, at, 2) as u16
    }

    fn write_at(self, memory: &mut [u8], at: usize) -> bool {
        write_number_at(memory, at, 2, u64::from(self))
    }
}

impl InMemory for u32 {
    ghost width = { 4 };

    ghost value = { λ n. n };

    fn read_at(memory: &[u8], at: usize) -> u32 {
        number_from(memory, at, 4) as u32
    }

    fn write_at(self, memory: &mut [u8], at: usize) -> bool {
        write_number_at(memory, at, 4, u64::from(self))
    }
}

impl InMemory for u64 {
    ghost width = { 8 };

    ghost value = { λ n. n };

    fn read_at(memory: &[u8], at: usize) -> u64 {
        number_from(memory, at, 8)
    }

    fn write_at(self, memory: &mut [u8], at: usize) -> bool {
        write_number_at(memory, at, 8, self)
    }
}

// Writes the last so many bytes of a number from a place on; false, and nothing written, where memory ends before.
pub fn write_number_at(memory: &mut [u8], at: usize, count: usize, value: u64) -> bool
    ensures fits { result ≡ nat_le (at + count) (length memory.old) }
    ensures after { memory.new ≡ (if result then overwritten at (big_endian count value) memory.old else memory.old) }
{
    if at > memory.len() || count > memory.len() - at {
        return false;
    }
    write_number(&mut memory[at..at + count], value);
    true
}

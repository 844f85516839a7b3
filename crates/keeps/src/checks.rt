// What holds over every keep: equal histories hold equal bytes, and a struck group has left no trace.
ghost use Rattle.std.specs.Prelude.{◌≡◌, true, is_ok};
ghost use Rattle.keeps.specs.Bytes.{EqualBytes, NoTrace};

use crate::fault::KeepFault;
use crate::keep::Keep;

// Nothing happens: that the function is proved says that two keeps of one make hold equal bytes where their numbers and
// histories agree, but for the cells and locators of retired groups.
pub fn equal_histories_hold_equal_bytes<K: Keep>(one: &K, other: &K)
    ensures { EqualBytes K.Keep one.now other.now }
{}

// Strikes one group in two keeps of one make. Where they differed only in the cells and locators of that group they hold
// equal bytes then, so that nothing of it is left to recover.
pub fn strike_both<K: Keep>(
    one: &mut K,
    other: &mut K,
    group: u16,
) -> (Result<u32, KeepFault>, Result<u32, KeepFault>)
    ensures { is_ok result.0 ≡ true → is_ok result.1 ≡ true → NoTrace K.Keep group one.old other.old one.new other.new }
{
    let first = one.strike(group);
    let second = other.strike(group);
    (first, second)
}

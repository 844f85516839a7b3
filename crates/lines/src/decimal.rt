// Numbers in decimal digits.
ghost use Rattle.std.specs.Prelude.{◌≡◌, [], ◌∷◌};
ghost use Rattle.lines.specs.Text.{number_after, number_of};

// The number that a text of one or more digits writes; nothing for any other text, or from 2^64 on.
pub fn decimal(text: &[u8]) -> Option<u64>
    ensures { result ≡ number_of text.now }
{
    if text.is_empty() { None } else { digits(text) }
}

// The same where the text may be empty, which stands for 0.
#[tactic(auto, using(crate::proofs::Numbers::number_wrong, crate::proofs::Numbers::number_more, crate::proofs::Numbers::number_all))]
fn digits(text: &[u8]) -> Option<u64>
    ensures { result ≡ number_after 0 text.now }
{
    let mut value = 0;
    for byte in text {
        value = with_digit(value, *byte)?;
    }
    Some(value)
}

// The number with one more digit at its end.
fn with_digit(value: u64, byte: u8) -> Option<u64>
    ensures { result ≡ number_after value (byte ∷ []) }
{
    match byte {
        b'0'..=b'9' => value.checked_mul(10)?.checked_add(u64::from(byte - b'0')),
        _ => None,
    }
}

#[cfg(test)]
mod tests {
    use super::*;

    #[test]
    fn a_number_is_below_2_to_the_64(rt: HostRuntime) {
        assert_eq!(rt; decimal(b"18446744073709551615"), Some(u64::MAX));
        assert_eq!(rt; decimal(b"18446744073709551616"), None);
    }

    #[test]
    fn a_number_is_digits_alone(rt: HostRuntime) {
        assert_eq!(rt; decimal(b"007"), Some(7));
        assert_eq!(rt; decimal(b""), None);
        assert_eq!(rt; decimal(b"+7"), None);
    }
}

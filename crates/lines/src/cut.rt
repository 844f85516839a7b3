// Cuts a text in two at a byte.
ghost use Rattle.std.specs.Prelude.{◌≡◌, ◌==◌, position};
ghost use Rattle.std.specs.Option.{option_map};
ghost use Rattle.lines.specs.Cutting.{before, after};

// Where such a byte stands first.
fn first_at(text: &[u8], byte: u8) -> Option<usize>
    ensures { result ≡ position (λ b. b == byte) text.now }
{
    text.iter().position(|b| *b == byte)
}

// What stands before the first such byte, and what follows it: nothing follows where the text has none.
#[tactic(auto, using(std::proofs::lemmas::Grind::common_steps, crate::proofs::Cuts::before_place, crate::proofs::Cuts::after_place))]
pub(crate) fn cut(text: &[u8], byte: u8) -> (&[u8], Option<&[u8]>)
    ensures front { result.0.now ≡ before byte text.now }
    ensures back { option_map (λ x. x.now) result.1 ≡ after byte text.now }
{
    match first_at(text, byte) {
        Some(at) => (&text[..at], Some(&text[at + 1..])),
        None => (text, None),
    }
}

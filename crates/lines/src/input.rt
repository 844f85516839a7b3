// The lines of an input, one after the other.
ghost use Rattle.std.specs.Prelude.{◌≡◌, [], ◌∷◌, MatchOption};
ghost use Rattle.std.specs.Iterator.{YieldsFirstRef, item_count};
ghost use Rattle.std.specs.Option.{option_map};
ghost use Rattle.lines.specs.Fields.{length_check};
ghost use Rattle.lines.specs.Readers.{OfInput, first_of, past_first};
ghost use Rattle.lines.specs.Text.{lines_of};

use crate::cut::cut;
use crate::fault::LineFault;
use std::marker::Model;

// The longest line that is looked at.
pub const LONGEST_LINE: usize = 80;

// Whether a line is looked at: 15 LINE as a whole where it is too long.
pub fn check_length(line: &[u8]) -> Result<(), LineFault>
    ensures { result ≡ length_check line.now }
{
    if line.len() > LONGEST_LINE {
        Err(LineFault { field: 0 })
    } else {
        Ok(())
    }
}

// What is left of an input to read.
#[derive(Drop)]
pub struct Lines<'a> {
    rest: &'a [u8],
}

// The lines that are left.
impl<'a> Model for Lines<'a> {
    ghost use Rattle.std.specs.Prelude.{ℕ, List};
    ghost use Rattle.lines.specs.Text.{lines_of};

    ghost Value = { List (List ℕ) };

    ghost view = { λ s. lines_of s.rest.now };
}

// The first line, without its end, and what follows it; nothing where the input is empty.
#[tactic(auto, using(std::proofs::lemmas::Grind::common_steps, crate::proofs::Splits::lines_split, crate::proofs::Splits::now_valueOr))]
fn first_line(input: &[u8]) -> Option<(&[u8], &[u8])>
    ensures { MatchOption result (input.now ≡ []) (λ p. lines_of input.now ≡ p.0.now ∷ lines_of p.1.now) }
{
    if input.is_empty() {
        return None;
    }
    let (line, rest) = cut(input, b'\n');
    Some((line, rest.unwrap_or(&[])))
}

impl<'a> Lines<'a> {
    pub fn new(input: &'a [u8]) -> Lines<'a>
        ensures { result ≡ lines_of input.now }
    {
        Lines { rest: input }
    }

    // The next line, without its end, or nothing past the last.
    pub fn next_line(&mut self) -> Option<&'a [u8]>
        ensures line { option_map (λ x. x.now) result ≡ first_of self.old }
        ensures left { self.new ≡ past_first self.old }
        ensures input { OfInput self.old × OfInput self.new }
    {
        let (line, rest) = first_line(self.rest)?;
        self.rest = rest;
        Some(line)
    }
}

impl<'a> Iterator for Lines<'a> {
    type Item = &'a [u8];

    ghost next_gives = { YieldsFirstRef (λ lines. lines) };

    ghost remaining = { item_count (λ lines. lines) };

    fn next(&mut self) -> Option<&'a [u8]> {
        self.next_line()
    }
}

#[cfg(test)]
mod tests {
    use super::*;

    #[test]
    fn no_line_follows_a_last_newline(rt: HostRuntime) {
        let mut lines = Lines::new(b"a\n\nb\n");
        assert_eq!(rt; lines.next_line(), Some(&b"a"[..]));
        assert_eq!(rt; lines.next_line(), Some(&b""[..]));
        assert_eq!(rt; lines.next_line(), Some(&b"b"[..]));
        assert_eq!(rt; lines.next_line(), None);
    }

    #[test]
    fn lines_come_one_by_one(rt: HostRuntime) {
        let mut last = (0, 0);
        for (number, line) in (1..=9).zip(Lines::new(b"a\n\nbcd\n")) {
            last = (number, line.len());
        }
        assert_eq!(rt; last, (3, 3));
    }

    #[test]
    fn the_last_line_may_lack_its_end(rt: HostRuntime) {
        let mut lines = Lines::new(b"a");
        assert_eq!(rt; lines.next_line(), Some(&b"a"[..]));
        assert_eq!(rt; lines.next_line(), None);
    }
}

// What a program expects next on a line: some text, a certain word, a number, or the line's end.
ghost use Rattle.std.specs.Prelude.{◌≡◌, ℕ, ◌≤◌, IfOk, List, Option};
ghost use Rattle.std.specs.Result.{result_map_both};
ghost use Rattle.std.specs.Str.{bytes_eq};
ghost use Rattle.lines.specs.Fields.{and_end, and_next, bounded_field, field_as, line_end, number_field, number_up_to, one_field, text_field, word_field, wrong_field};
ghost use Rattle.lines.specs.Readers.{OfLine, numbered, onward};
ghost use Rattle.lines.specs.Text.{number_of};

use crate::decimal::decimal;
use crate::fault::LineFault;
use crate::field::{Field, Fields};

// A type of values that a field may write.
pub trait FromField: Sized {
    // The value that a text writes, if it writes one.
    ghost meaning: { List ℕ → Option Self };

    fn from_field(text: &[u8]) -> Option<Self>
        ensures { result ≡ meaning text.now };
}

impl FromField for u64 {
    ghost meaning = { number_of };

    fn from_field(text: &[u8]) -> Option<u64> {
        decimal(text)
    }
}

impl FromField for u32 {
    ghost meaning = { number_up_to 4294967295 };

    fn from_field(text: &[u8]) -> Option<u32> {
        u32::try_from(decimal(text)?).ok()
    }
}

impl FromField for u16 {
    ghost meaning = { number_up_to 65535 };

    fn from_field(text: &[u8]) -> Option<u16> {
        u16::try_from(decimal(text)?).ok()
    }
}

impl Field<'_> {
    // Is the field this word?
    pub fn is_word(&self, word: &[u8]) -> bool
        ensures { result ≡ bytes_eq self.now.text.now word.now }
    {
        self.text == word
    }

    // The refusal of this field.
    pub fn wrong(&self) -> LineFault
        ensures { result.field ≡ self.now.number }
    {
        LineFault { field: self.number }
    }
}

impl<'a> Fields<'a> {
    // The next field, which must be there.
    fn one(&mut self) -> Result<Field<'a>, LineFault>
        ensures field { result_map_both numbered (λ f. f) result ≡ one_field self.old }
        ensures onward { self.new ≡ onward self.old }
        ensures line { OfLine self.old × OfLine self.new }
    {
        let wrong = self.wrong();
        self.next().ok_or(wrong)
    }

    // The next field, which must be there and not be empty.
    pub fn text(&mut self) -> Result<Field<'a>, LineFault>
        ensures field { result_map_both numbered (λ f. f) result ≡ text_field self.old }
        ensures onward { self.new ≡ onward self.old }
        ensures line { OfLine self.old × OfLine self.new }
    {
        let field = self.one()?;
        if field.text.is_empty() {
            Err(field.wrong())
        } else {
            Ok(field)
        }
    }

    // The next field must be there, and be this word.
    pub fn word(&mut self, word: &[u8]) -> Result<(), LineFault>
        ensures value { result ≡ word_field word.now self.old }
        ensures onward { self.new ≡ onward self.old }
        ensures line { OfLine self.old × OfLine self.new }
    {
        let field = self.one()?;
        if field.is_word(word) {
            Ok(())
        } else {
            Err(field.wrong())
        }
    }

    // The value in the next field, which must be there and write one.
    pub fn value<T: FromField>(&mut self) -> Result<T, LineFault>
        ensures value { result ≡ field_as T.meaning self.old }
        ensures onward { self.new ≡ onward self.old }
        ensures line { OfLine self.old × OfLine self.new }
    {
        let field = self.one()?;
        T::from_field(field.text).ok_or(field.wrong())
    }

    // The value in the next field, as `value` reads it, and then no more fields.
    pub fn last_value<T: FromField + Drop>(&mut self) -> Result<T, LineFault>
        ensures value { result ≡ and_next (field_as T.meaning) and_end self.old }
        ensures onward { self.new ≡ onward self.old }
        ensures line { OfLine self.old × OfLine self.new }
    {
        let value = self.value()?;
        self.end()?;
        Ok(value)
    }

    // The number in the next field, which must be there and be one.
    pub fn number(&mut self) -> Result<u64, LineFault>
        ensures value { result ≡ number_field self.old }
        ensures onward { self.new ≡ onward self.old }
        ensures line { OfLine self.old × OfLine self.new }
    {
        self.value()
    }

    // The number in the next field, which must be there, be one, and be no larger than this.
    pub fn number_up_to(&mut self, largest: u64) -> Result<u64, LineFault>
        ensures value { result ≡ bounded_field largest self.old }
        ensures onward { self.new ≡ onward self.old }
        ensures line { OfLine self.old × OfLine self.new }
        ensures small { IfOk result (λ n. n ≤ largest) }
    {
        let field = self.one()?;
        match decimal(field.text) {
            Some(number) if number <= largest => Ok(number),
            _ => Err(field.wrong()),
        }
    }

    // No field may be left.
    pub fn end(&self) -> Result<(), LineFault>
        ensures value { result ≡ line_end self.now }
        ensures line { OfLine self.now }
    {
        if self.is_done() {
            Ok(())
        } else {
            Err(self.wrong())
        }
    }

    // The refusal of the next field.
    fn wrong(&self) -> LineFault
        ensures { result ≡ wrong_field self.now }
    {
        LineFault {
            field: self.next_number(),
        }
    }
}

#[cfg(test)]
mod tests {
    use super::*;
    use std::test::Fail;

    #[test]
    fn the_empty_line_has_one_empty_field(rt: HostRuntime) -> Result<(), Fail> {
        let mut fields = Fields::new(b"");
        let field = fields.next().ok_or("no field")?;
        assert_eq!(rt; field.number, 1);
        assert_eq!(rt; field.text, &b""[..]);
        assert_eq!(rt; fields.end(), Ok(()));
        Ok(())
    }

    #[test]
    fn two_spaces_hold_an_empty_field(rt: HostRuntime) -> Result<(), Fail> {
        let mut fields = Fields::new(b"put  7");
        fields.word(b"put")?;
        assert_eq!(rt; fields.number(), Err(LineFault { field: 2 }));
        assert_eq!(rt; fields.number(), Ok(7));
        Ok(())
    }

    #[test]
    fn a_value_fits_its_type(rt: HostRuntime) -> Result<(), Fail> {
        let mut fields = Fields::new(b"65535 65536 4294967295 4294967296 9");
        assert_eq!(rt; fields.value::<u16>(), Ok(65535));
        assert_eq!(rt; fields.value::<u16>(), Err(LineFault { field: 2 }));
        assert_eq!(rt; fields.value::<u32>(), Ok(4294967295));
        assert_eq!(rt; fields.value::<u32>(), Err(LineFault { field: 4 }));
        assert_eq!(rt; fields.last_value::<u64>(), Ok(9));
        Ok(())
    }

    #[test]
    fn no_field_follows_a_last_value(rt: HostRuntime) {
        let mut fields = Fields::new(b"1 2");
        assert_eq!(rt; fields.last_value::<u64>(), Err(LineFault { field: 2 }));
    }

    #[test]
    fn no_field_may_be_missing_or_extra(rt: HostRuntime) -> Result<(), Fail> {
        let mut fields = Fields::new(b"put 7");
        fields.word(b"put")?;
        assert_eq!(rt; fields.end(), Err(LineFault { field: 2 }));
        assert_eq!(rt; fields.number(), Ok(7));
        assert_eq!(rt; fields.number(), Err(LineFault { field: 3 }));
        Ok(())
    }
}

// The fields of a line, one after the other.
ghost use Rattle.std.specs.Prelude.{◌≡◌, ◌∷◌, length};
ghost use Rattle.std.specs.Iterator.{at_most};
ghost use Rattle.std.specs.Option.{option_map};
ghost use Rattle.lines.specs.Readers.{GivesField, OfLine, all_of, fields_of_rest, next_number, none_left};
ghost use Rattle.lines.specs.Text.{fields_of};

use crate::cut::cut;
use std::marker::Model;

// A part of a line between spaces, with its number, counted from 1. Numbers stop at 2^32 - 1: any later field has that one.
#[derive(Clone, Copy)]
pub struct Field<'a> {
    pub number: u32,
    pub text: &'a [u8],
}

// What is left of a line to read, nothing once its last field was read, and the number of the last field that was.
#[derive(Drop)]
pub struct Fields<'a> {
    rest: Option<&'a [u8]>,
    read: u32,
}

// The number of the last field that was read, and the fields that are left.
impl<'a> Model for Fields<'a> {
    ghost use Rattle.std.specs.Option.{option_map};
    ghost use Rattle.lines.specs.Readers.{Unread, fields_of_rest};

    ghost Value = { Unread };

    ghost view = { λ s. record { read = s.read; left = fields_of_rest (option_map (λ x. x.now) s.rest) } };
}

// The first field, and what follows its space; nothing follows the last field.
#[tactic(auto, using(crate::proofs::Splits::fields_split))]
fn first_field(line: &[u8]) -> (&[u8], Option<&[u8]>)
    ensures { fields_of line.now ≡ result.0.now ∷ fields_of_rest (option_map (λ x. x.now) result.1) }
{
    cut(line, b' ')
}

impl<'a> Fields<'a> {
    pub fn new(line: &'a [u8]) -> Fields<'a>
        ensures { result ≡ all_of line.now }
    {
        Fields {
            rest: Some(line),
            read: 0,
        }
    }

    // The number of the next field.
    pub(crate) fn next_number(&self) -> u32
        ensures { result ≡ next_number self.now.read }
    {
        self.read.saturating_add(1)
    }

    // Is no field left?
    pub(crate) fn is_done(&self) -> bool
        ensures value { result ≡ none_left self.now.left }
        ensures line { OfLine self.now }
    {
        self.rest.is_none()
    }
}

// The next field, or nothing past the last.
impl<'a> Iterator for Fields<'a> {
    type Item = Field<'a>;

    ghost next_gives = { GivesField };

    ghost remaining = { λ u. at_most (length u.left) };

    fn next(&mut self) -> Option<Field<'a>> {
        let line = self.rest?;
        let number = self.next_number();
        let (text, rest) = first_field(line);
        self.rest = rest;
        self.read = number;
        Some(Field { number, text })
    }
}

// A line that asks a store: `write CELL HEX`, `read CELL` or `take CELL`.
ghost use Rattle.std.specs.Prelude.{◌≡◌, vec_items};
ghost use Rattle.lines.specs.Readers.{OfLine, numbered};
ghost use Rattle.commands.specs.Commands.{Barring, asked, command_of, digits_in, last_bytes, rest_of, told, verb_of};
ghost use Rattle.commands.specs.declared.command.CommandFault.TheVariants.{Line as InLine, Memory as NoMemory};

use hex_digits::from_digits;
use lines::fault::LineFault;
use lines::field::{Field, Fields};
use lines::parse::FromField;
use std::alloc::{AllocError, Global};

#[derive(Drop)]
pub enum Command {
    Write { cell: u32, bytes: Vec<u8> },
    Read { cell: u32 },
    Take { cell: u32 },
}

// Why a line is no command.
#[derive(Clone, Copy)]
pub enum CommandFault {
    Line(LineFault),
    // Want of memory: no refusal of the rules.
    Memory,
}

impl From<LineFault> for CommandFault {
    ghost from_gives = { λ x y. y ≡ InLine x };

    fn from(line: LineFault) -> CommandFault {
        CommandFault::Line(line)
    }
}

impl From<AllocError> for CommandFault {
    ghost from_gives = { λ x y. y ≡ NoMemory };

    fn from(_: AllocError) -> CommandFault {
        CommandFault::Memory
    }
}

// The bytes that a field's digits write.
fn read_digits(heap: Global, field: &Field) -> Result<Vec<u8>, CommandFault>
    ensures { Barring result (told vec_items result ≡ digits_in (numbered field.now)) }
{
    let bytes = from_digits(heap, field.text)?;
    bytes.ok_or(CommandFault::Line(field.wrong()))
}

// Bytes in hexadecimal digits, at least one byte, and then no more fields.
pub fn read_last_bytes(heap: Global, fields: &mut Fields) -> Result<Vec<u8>, CommandFault>
    ensures value { Barring result (told vec_items result ≡ last_bytes fields.old) }
    ensures line { OfLine fields.old × OfLine fields.new }
{
    let field = fields.text()?;
    let bytes = read_digits(heap, &field)?;
    fields.end()?;
    Ok(bytes)
}

// What a line's first field asks for.
#[derive(Clone, Copy, PartialEq, Eq, Debug)]
pub enum Verb {
    Write,
    Read,
    Take,
}

impl FromField for Verb {
    ghost meaning = { verb_of };

    fn from_field(text: &[u8]) -> Option<Verb> {
        match text {
            b"write" => Some(Verb::Write),
            b"read" => Some(Verb::Read),
            b"take" => Some(Verb::Take),
            _ => None,
        }
    }
}

// The fields after the first.
fn read_rest(heap: Global, verb: Verb, fields: &mut Fields) -> Result<Command, CommandFault>
    ensures { Barring result (told asked result ≡ rest_of verb fields.old) }
{
    match verb {
        Verb::Write => {
            let cell = fields.value()?;
            let bytes = read_last_bytes(heap, fields)?;
            Ok(Command::Write { cell, bytes })
        }
        Verb::Read => Ok(Command::Read {
            cell: fields.last_value()?,
        }),
        Verb::Take => Ok(Command::Take {
            cell: fields.last_value()?,
        }),
    }
}

impl Command {
    // What a line asks; 15 LINE where it is malformed.
    pub fn read(heap: Global, line: &[u8]) -> Result<Command, CommandFault>
        ensures { Barring result (told asked result ≡ command_of line.now) }
    {
        let mut fields = Fields::new(line);
        let verb = fields.value()?;
        read_rest(heap, verb, &mut fields)
    }
}

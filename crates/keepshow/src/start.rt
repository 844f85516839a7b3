// The lines before a keep stands: how much memory there is, what it holds, and which keep is wanted in it.
ghost use Rattle.keepshow.specs.Starts.{make_of};

use commands::command::{CommandFault, read_last_bytes};
use lines::fault::LineFault;
use lines::field::Fields;
use lines::input::check_length;
use lines::parse::FromField;
use std::alloc::Global;

// The largest memory that may be asked for.
const LARGEST_MEMORY: u64 = 65536;

#[derive(Clone, Copy)]
pub enum Make {
    Blocks,
    Ledger,
}

// How a keep comes to stand in a memory: blank, or with what the memory holds.
#[derive(Clone, Copy)]
pub enum Beginning {
    SetUp,
    Opened,
}

// A keep that is wanted, with so many groups, and so many slots or lines.
#[derive(Clone, Copy)]
pub struct Wanted {
    pub beginning: Beginning,
    pub make: Make,
    pub groups: u32,
    pub size: u32,
}

#[derive(Drop)]
enum Start {
    Fill { at: u64, bytes: Vec<u8> },
    Keep(Wanted),
}

// How many bytes of memory a first line asks for; 15 LINE where it is malformed or too long.
pub fn read_memory(line: &[u8]) -> Result<usize, LineFault> {
    check_length(line)?;
    let mut fields = Fields::new(line);
    fields.word(b"memory")?;
    let bytes = fields.number_up_to(LARGEST_MEMORY)?;
    fields.end()?;
    Ok(bytes as usize)
}

impl FromField for Make {
    ghost meaning = { make_of };

    fn from_field(text: &[u8]) -> Option<Make> {
        match text {
            b"blocks" => Some(Make::Blocks),
            b"ledger" => Some(Make::Ledger),
            _ => None,
        }
    }
}

fn read_wanted(fields: &mut Fields, beginning: Beginning) -> Result<Wanted, LineFault> {
    Ok(Wanted {
        beginning,
        make: fields.value()?,
        groups: fields.value()?,
        size: fields.last_value()?,
    })
}

// What a line asks for; 15 LINE where it is malformed or too long.
fn read_start(heap: Global, line: &[u8]) -> Result<Start, CommandFault> {
    check_length(line)?;
    let mut fields = Fields::new(line);
    let word = fields.text()?;
    match word.text {
        b"fill" => Ok(Start::Fill {
            at: fields.value()?,
            bytes: read_last_bytes(heap, &mut fields)?,
        }),
        b"set" => Ok(Start::Keep(read_wanted(&mut fields, Beginning::SetUp)?)),
        b"open" => Ok(Start::Keep(read_wanted(&mut fields, Beginning::Opened)?)),
        _ => Err(CommandFault::Line(word.wrong())),
    }
}

// Writes bytes into the memory from a place on; LINE 2, and nothing written, where they pass its end.
fn fill(memory: &mut [u8], at: u64, bytes: &[u8]) -> Result<(), LineFault> {
    if at > memory.len() as u64 || bytes.len() > memory.len() - at as usize {
        return Err(LineFault { field: 2 });
    }
    let first = at as usize;
    memory[first..first + bytes.len()].copy_from_slice(bytes);
    Ok(())
}

// Fills in the bytes that a line brings, or tells which keep it wants; 15 LINE where it is malformed, too long or brings too much.
pub fn begin(heap: Global, memory: &mut [u8], line: &[u8]) -> Result<Option<Wanted>, CommandFault> {
    match read_start(heap, line)? {
        Start::Keep(wanted) => Ok(Some(wanted)),
        Start::Fill { at, bytes } => {
            fill(memory, at, bytes.as_slice())?;
            Ok(None)
        }
    }
}

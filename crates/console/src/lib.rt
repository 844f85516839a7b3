// What the programs share: reading a batch from standard input, its lines by their numbers, and printing answers and bytes.
#![tactic(auto)]

ghost use Rattle.std.specs.Prelude.{◌≡◌, OnOk};
ghost use Rattle.std.specs.Io.KnownBytes.{Appends};
ghost use Rattle.std.specs.Iterator.Adapters.{zip_first, zip_second};
ghost use Rattle.lines.specs.Text.{lines_of};
ghost use Rattle.console.specs.Printed.{Tells, bytes_line, refusal_line};

use hex_digits::Hex;
use lines::input::Lines;
use refusals::Refusal;
use std::alloc::Global;
use std::fmt::Display;
use std::io;
use std::io::{Read, Write};
use std::iter::Zip;
use std::ops::RangeInclusive;

// The longest batch that is looked at.
pub const LONGEST_INPUT: usize = 65536;

// All of the input, or nothing where it is too long.
pub fn read_batch(heap: Global, input: impl Read + Drop) -> io::Result<Option<Vec<u8>>> {
    let mut batch = Vec::new(heap);
    input
        .take(LONGEST_INPUT as u64 + 1)
        .read_to_end(&mut batch)?;
    if batch.len() > LONGEST_INPUT {
        Ok(None)
    } else {
        Ok(Some(batch))
    }
}

// The lines of a batch, each with its number, counted from 1.
pub type Numbered<'a> = Zip<RangeInclusive<usize>, Lines<'a>>;

pub fn numbered(batch: &[u8]) -> Numbered<'_>
    ensures numbers { ((zip_first result).start ≡ 1) × ((zip_first result).end ≡ 65536) }
    ensures lines { zip_second result ≡ lines_of batch.now }
{
    (1..=LONGEST_INPUT).zip(Lines::new(batch))
}

// What a program plays commands with: where memory comes from, where answers go, and the lines that are left.
#[derive(Drop)]
pub struct Session<'a, W> {
    pub heap: Global,
    pub out: &'a mut W,
    pub lines: Numbered<'a>,
}

// One line: the number of the refused line, that of the refusal, and its detail or `-`.
pub fn print_refusal<W: Write, R: Refusal>(out: &mut W, line: usize, refusal: &R) -> io::Result<()>
    ensures { OnOk result (Appends (W.contents out.old) (W.contents out.new) (refusal_line line (R.number_of refusal.now) (R.detail_of refusal.now))) }
{
    let number = refusal.number();
    match refusal.detail() {
        Some(detail) => writeln!(out, "no {line} {number} {detail}"),
        None => writeln!(out, "no {line} {number} -"),
    }
}

// One line: what a line is answered, or that it is refused.
pub fn print_answer<W: Write, T: Display + Drop, R: Refusal + Drop>(
    out: &mut W,
    line: usize,
    answer: Result<T, R>,
) -> io::Result<()>
    ensures { Tells answer T.output R.number_of R.detail_of line result (W.contents out.old) (W.contents out.new) }
{
    match answer {
        Ok(reply) => writeln!(out, "{reply}"),
        Err(refusal) => print_refusal(out, line, &refusal),
    }
}

// All bytes of a memory.
pub fn print_bytes<W: Write>(out: &mut W, memory: &[u8]) -> io::Result<()>
    ensures { OnOk result (Appends (W.contents out.old) (W.contents out.new) (bytes_line memory.now)) }
{
    let digits = Hex(memory);
    writeln!(out, "bytes {digits}")
}

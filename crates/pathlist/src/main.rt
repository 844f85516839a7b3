// Prints, for settings and keys on standard input, every cell in which each key's entry may ever stand.
#![tactic(auto)]

use console::{numbered, print_refusal, read_batch};
use lines::fault::LineFault;
use listing::fault::Fault;
use listing::machine::Listing;
use listing::state::Reply;
use std::alloc::AllocError;
use std::io;
use std::io::{BufWriter, Write};

// The key as it was written, and its cells.
// (No `Display`: the key is the caller's own text, and the answer does not hold it.)
fn print_path(out: &mut impl Write, key: &[u8], cells: &[u32]) -> io::Result<()> {
    out.write_all(key)?;
    for cell in cells {
        write!(out, " {cell}")?;
    }
    out.write_all(b"\n")
}

fn main(rt: HostRuntime) -> io::Result<()> {
    let mut out = BufWriter::new(rt.alloc(), rt.stdout())?;
    let Some(batch) = read_batch(rt.alloc(), rt.stdin())? else {
        print_refusal(&mut out, 0, &LineFault { field: 0 })?;
        return out.flush();
    };
    let mut listing = Listing::new();
    for (number, line) in numbered(batch.as_slice()) {
        match listing.step(rt.alloc(), line) {
            Ok(Reply::Nothing) => {}
            Ok(Reply::Total { total }) => writeln!(out, "ready {total}")?,
            Ok(Reply::Path { cells }) => print_path(&mut out, line, cells.as_slice())?,
            Err(Fault::Memory) => return Err(AllocError.into()),
            Err(fault) => print_refusal(&mut out, number, &fault)?,
        }
    }
    out.flush()
}

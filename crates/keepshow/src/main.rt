// Sets a keep up in a memory, or opens what the memory holds, and puts the commands of the other lines to it.
#![tactic(auto)]

ghost use Rattle.std.specs.Prelude.{◌≡◌, IfOk, false};

mod start;

use blocks::keep::Blocks;
use commands::command::CommandFault;
use console::{Session, numbered, print_answer, print_bytes, print_refusal, read_batch};
use keepcommands::answer::answer;
use keepcommands::command::KeepCommand;
use keeps::keep::Keep;
use ledgers::ledger::Ledger;
use lines::fault::LineFault;
use lines::input::check_length;
use start::{Beginning, Make, Wanted, begin, read_memory};
use std::alloc::AllocError;
use std::io;
use std::io::{BufWriter, Write};
use stores::fault::SetUpFault;

// What a line asks; 15 LINE where it is malformed or too long.
fn read_command(line: &[u8]) -> Result<KeepCommand, LineFault> {
    check_length(line)?;
    KeepCommand::read(line)
}

// All commands, put to a keep.
fn play<W: Write, K: Keep>(session: &mut Session<W>, keep: &mut K) -> io::Result<()> {
    let groups = keep.group_count();
    writeln!(session.out, "groups {groups}")?;
    for (number, line) in &mut session.lines {
        match read_command(line) {
            Ok(command) => print_answer(session.out, number, answer(keep, command))?,
            Err(fault) => print_refusal(session.out, number, &fault)?,
        }
    }
    Ok(())
}

// Plays a keep, if there is one; says whether there was, and reads no line if not.
fn play_made<W: Write, K: Keep + Drop>(
    session: &mut Session<W>,
    number: usize,
    made: Result<K, SetUpFault>,
) -> io::Result<bool>
    ensures { IfOk result (λ played. played ≡ false → session.new.lines ≡ session.old.lines) }
{
    match made {
        Ok(mut keep) => {
            play(session, &mut keep)?;
            Ok(true)
        }
        Err(fault) => {
            print_refusal(session.out, number, &fault)?;
            Ok(false)
        }
    }
}

// Plays the keep that is wanted, if the memory and its numbers allow; says whether they did, and reads no line if not.
fn on_keep<W: Write>(
    session: &mut Session<W>,
    memory: &mut [u8],
    number: usize,
    wanted: Wanted,
) -> io::Result<bool>
    ensures { IfOk result (λ played. played ≡ false → session.new.lines ≡ session.old.lines) }
{
    let Wanted {
        beginning,
        make,
        groups,
        size,
    } = wanted;
    // (Each arm makes a keep of another type; what follows is one generic function.)
    match (make, beginning) {
        (Make::Blocks, Beginning::SetUp) => {
            play_made(session, number, Blocks::set_up(memory, groups, size))
        }
        (Make::Blocks, Beginning::Opened) => {
            play_made(session, number, Blocks::open(memory, groups, size))
        }
        (Make::Ledger, Beginning::SetUp) => {
            play_made(session, number, Ledger::set_up(memory, groups, size))
        }
        (Make::Ledger, Beginning::Opened) => {
            play_made(session, number, Ledger::open(memory, groups, size))
        }
    }
}

// All lines behind the first, over so many bytes of memory.
fn on_memory<W: Write>(session: &mut Session<W>, bytes: usize) -> io::Result<()> {
    let mut memory = vec![in session.heap; 0xA5; bytes]?;
    while let Some((number, line)) = session.lines.next() {
        match begin(session.heap, memory.as_mut_slice(), line) {
            Ok(None) => {}
            Ok(Some(wanted)) => {
                if on_keep(session, memory.as_mut_slice(), number, wanted)? {
                    break;
                }
            }
            Err(CommandFault::Line(fault)) => print_refusal(session.out, number, &fault)?,
            Err(CommandFault::Memory) => return Err(AllocError.into()),
        }
    }
    print_bytes(session.out, memory.as_slice())
}

fn main(rt: HostRuntime) -> io::Result<()> {
    let heap = rt.alloc();
    let mut out = BufWriter::new(heap, rt.stdout())?;
    let Some(batch) = read_batch(heap, rt.stdin())? else {
        print_refusal(&mut out, 0, &LineFault { field: 0 })?;
        return out.flush();
    };
    let mut lines = numbered(batch.as_slice());
    if let Some((number, line)) = lines.next() {
        match read_memory(line) {
            Ok(bytes) => {
                let mut session = Session {
                    heap,
                    out: &mut out,
                    lines,
                };
                on_memory(&mut session, bytes)?;
            }
            Err(fault) => print_refusal(&mut out, number, &fault)?,
        }
    }
    out.flush()
}

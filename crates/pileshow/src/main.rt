// Piles stores as the first line asks, puts the commands of the other lines to the topmost, and shows every layer.
#![tactic(auto)]

mod layers;
mod pile;
mod stop;

use commands::answer::answer;
use commands::command::{Command, CommandFault};
use console::{Session, numbered, print_answer, print_bytes, print_refusal, read_batch};
use layers::Layers;
use lines::fault::LineFault;
use lines::input::check_length;
use pile::{Pile, ReelSize, Run, plate_bytes, read_pile};
use piles::join::Join;
use piles::window::Window;
use plates::plate::Plate;
use reels::reel::Reel;
use std::alloc::{AllocError, Global};
use std::io;
use std::io::{BufWriter, Write};
use stop::Stop;
use stores::store::Store;

// Memory as it may have been left by somebody else.
fn lent(heap: Global, bytes: u32) -> Result<Vec<u8>, AllocError> {
    vec![in heap; 0xA5; bytes as usize + 3]
}

// What a line asks; 15 LINE where it is malformed or too long.
fn read_command(heap: Global, line: &[u8]) -> Result<Command, CommandFault> {
    check_length(line)?;
    Command::read(heap, line)
}

// One command.
// (Heap and output beside one another: the session lends its lines meanwhile.)
fn play_line<W: Write, S: Store>(
    heap: Global,
    out: &mut W,
    store: &mut S,
    number: usize,
    line: &[u8],
) -> io::Result<()> {
    match read_command(heap, line) {
        Ok(command) => print_answer(out, number, answer(store, &command)),
        Err(CommandFault::Line(fault)) => print_refusal(out, number, &fault),
        Err(CommandFault::Memory) => Err(AllocError.into()),
    }
}

// All commands, put to a store, and then its layers.
fn play<W: Write>(session: &mut Session<W>, mut store: impl Layers) -> Result<(), Stop> {
    let size = store.size();
    writeln!(session.out, "size {size}")?;
    for (number, line) in &mut session.lines {
        play_line(session.heap, session.out, &mut store, number, line)?;
    }
    store.show_layers(session.out)?;
    Ok(())
}

// The same, through a window where one is asked for.
fn play_shown<W: Write>(
    session: &mut Session<W>,
    store: impl Layers,
    shown: Option<Run>,
) -> Result<(), Stop> {
    match shown {
        None => play(session, store),
        Some(run) => play(session, Window::new(store, run.first, run.count)?),
    }
}

fn on_plate<W: Write>(
    session: &mut Session<W>,
    cells: u32,
    shown: Option<Run>,
) -> Result<(), Stop> {
    let mut memory = lent(session.heap, plate_bytes(cells))?;
    play_shown(session, Plate::set_up(memory.as_mut_slice(), cells)?, shown)?;
    print_bytes(session.out, memory.as_slice())?;
    Ok(())
}

fn on_reel<W: Write>(session: &mut Session<W>, size: ReelSize) -> Result<(), Stop> {
    let mut memory = lent(session.heap, size.bytes())?;
    play(
        session,
        Reel::set_up(memory.as_mut_slice(), size.cells, size.lines)?,
    )?;
    print_bytes(session.out, memory.as_slice())?;
    Ok(())
}

// (The parts of `Pile::Join`, each by its name.)
fn on_join<W: Write>(
    session: &mut Session<W>,
    cells: u32,
    inner: Option<Run>,
    size: ReelSize,
    shown: Option<Run>,
) -> Result<(), Stop> {
    let mut first = lent(session.heap, plate_bytes(cells))?;
    let mut second = lent(session.heap, size.bytes())?;
    let plate = Plate::set_up(first.as_mut_slice(), cells)?;
    let reel = Reel::set_up(second.as_mut_slice(), size.cells, size.lines)?;
    match inner {
        None => play_shown(session, Join::new(plate, reel)?, shown)?,
        Some(run) => {
            let front = Window::new(plate, run.first, run.count)?;
            play_shown(session, Join::new(front, reel)?, shown)?;
        }
    }
    print_bytes(session.out, first.as_slice())?;
    print_bytes(session.out, second.as_slice())?;
    Ok(())
}

fn on_pile<W: Write>(session: &mut Session<W>, pile: Pile) -> Result<(), Stop> {
    // (A `match` of the enum that was read: each arm has parts of its own.)
    match pile {
        Pile::Plate { cells, shown } => on_plate(session, cells, shown),
        Pile::Reel { reel } => on_reel(session, reel),
        Pile::Join {
            cells,
            inner,
            reel,
            shown,
        } => on_join(session, cells, inner, reel, shown),
    }
}

fn main(rt: HostRuntime) -> io::Result<()> {
    let heap = rt.alloc();
    let mut out = BufWriter::new(heap, rt.stdout())?;
    let Some(batch) = read_batch(heap, rt.stdin())? else {
        print_refusal(&mut out, 0, &LineFault { field: 0 })?;
        return out.flush();
    };
    let mut lines = numbered(batch.as_slice());
    if let Some((number, line)) = lines.next() {
        match read_pile(line) {
            Ok(pile) => {
                let mut session = Session {
                    heap,
                    out: &mut out,
                    lines,
                };
                match on_pile(&mut session, pile) {
                    Ok(()) => {}
                    Err(Stop::Refused(fault)) => print_refusal(&mut out, number, &fault)?,
                    Err(Stop::Failed(error)) => return Err(error),
                }
            }
            Err(fault) => print_refusal(&mut out, number, &fault)?,
        }
    }
    out.flush()
}

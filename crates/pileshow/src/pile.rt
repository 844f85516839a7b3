// The line that asks for a pile of stores, by a word and numbers.
use lines::fault::LineFault;
use lines::field::Fields;
use lines::input::check_length;

// The largest number that a pile may be asked for with.
const LARGEST: u64 = 64;

// A reel's numbers.
#[derive(Clone, Copy)]
pub struct ReelSize {
    pub cells: u32,
    pub lines: u32,
}

impl ReelSize {
    // The bytes that such a reel needs.
    pub fn bytes(self) -> u32 {
        self.lines.saturating_mul(28).saturating_add(4)
    }
}

// The bytes that a plate needs.
pub fn plate_bytes(cells: u32) -> u32 {
    cells.saturating_mul(25)
}

// A window's run of cells.
#[derive(Clone, Copy)]
pub struct Run {
    pub first: u32,
    pub count: u32,
}

// A pile, by the store at its bottom, or the two that are joined there; over one, or over the join, there may be a window.
#[derive(Clone, Copy)]
pub enum Pile {
    Plate {
        cells: u32,
        shown: Option<Run>,
    },
    Reel {
        reel: ReelSize,
    },
    // Of the plate as it is, or a window on it, and the reel.
    Join {
        cells: u32,
        inner: Option<Run>,
        reel: ReelSize,
        shown: Option<Run>,
    },
}

fn small(fields: &mut Fields) -> Result<u32, LineFault> {
    Ok(fields.number_up_to(LARGEST)? as u32)
}

fn reel_size(fields: &mut Fields) -> Result<ReelSize, LineFault> {
    let cells = small(fields)?;
    let lines = small(fields)?;
    Ok(ReelSize { cells, lines })
}

fn read_run(fields: &mut Fields) -> Result<Run, LineFault> {
    let first = small(fields)?;
    let count = small(fields)?;
    Ok(Run { first, count })
}

fn numbers(fields: &mut Fields) -> Result<Pile, LineFault> {
    let word = fields.text()?;
    match word.text {
        b"plate" => Ok(Pile::Plate {
            cells: small(fields)?,
            shown: None,
        }),
        b"reel" => Ok(Pile::Reel {
            reel: reel_size(fields)?,
        }),
        b"window" => Ok(Pile::Plate {
            cells: small(fields)?,
            shown: Some(read_run(fields)?),
        }),
        b"join" => Ok(Pile::Join {
            cells: small(fields)?,
            inner: None,
            reel: reel_size(fields)?,
            shown: None,
        }),
        b"shown" => Ok(Pile::Join {
            cells: small(fields)?,
            inner: None,
            reel: reel_size(fields)?,
            shown: Some(read_run(fields)?),
        }),
        b"deep" => Ok(Pile::Join {
            cells: small(fields)?,
            inner: Some(read_run(fields)?),
            reel: reel_size(fields)?,
            shown: Some(read_run(fields)?),
        }),
        _ => Err(word.wrong()),
    }
}

// What a line asks for; 15 LINE where it is malformed.
pub fn read_pile(line: &[u8]) -> Result<Pile, LineFault> {
    check_length(line)?;
    let mut fields = Fields::new(line);
    let pile = numbers(&mut fields)?;
    fields.end()?;
    Ok(pile)
}

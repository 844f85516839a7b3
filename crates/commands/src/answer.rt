// What a store answers to a command.
ghost use Rattle.std.specs.Prelude.{◌≡◌, ℕ, Some};
ghost use Rattle.stores.specs.Cells.{Cell};
ghost use Rattle.commands.specs.Answers.{answer_of, after_command, read_reply, reply_text};
ghost use Rattle.commands.specs.Commands.{asked};

use crate::command::Command;
use hex_digits::Hex;
use std::fmt;
use stores::fault::StoreFault;
use stores::store::Store;

#[derive(Clone, Copy)]
pub enum Reply {
    Written { cell: u32 },
    Holds { cell: u32, bytes: [u8; 24] },
    Blank { cell: u32 },
    Free { cell: u32 },
    Taken { cell: u32 },
}

// The reply's word and cell, and the bytes where there are any.
impl fmt::Display for Reply {
    ghost output = { λ reply. Some (reply_text reply) };

    fn fmt<W: fmt::Write>(&self, f: &mut fmt::Formatter<W>) -> fmt::Result {
        match self {
            Reply::Written { cell } => write!(f, "written {cell}"),
            Reply::Holds { cell, bytes } => {
                let digits = Hex(bytes.as_slice());
                write!(f, "holds {cell} {digits}")
            }
            Reply::Blank { cell } => write!(f, "blank {cell}"),
            Reply::Free { cell } => write!(f, "free {cell}"),
            Reply::Taken { cell } => write!(f, "taken {cell}"),
        }
    }
}

// A cell's content, or that it is blank.
fn read_cell<S: Store>(store: &S, cell: u32) -> Result<Reply, StoreFault>
    ensures { result ≡ read_reply (S.Store.cells store.now) (S.Store.cell store.now) cell }
{
    match store.held(cell)? {
        Some(bytes) => Ok(Reply::Holds { cell, bytes }),
        None => Ok(Reply::Blank { cell }),
    }
}

// Asks the store; a command other than an accepted write leaves every cell as it was.
pub fn answer<S: Store>(store: &mut S, command: &Command) -> Result<Reply, StoreFault>
    ensures value { result ≡ answer_of (S.Store.cells store.old) (S.Store.cell store.old) (S.Store.takes store.old) (asked command.now) }
    ensures after { (d : ℕ) → S.Store.cell store.new d ≡ after_command result (S.Store.cell store.old) (asked command.now) d }
{
    match command {
        Command::Write { cell, bytes } => {
            store.write(*cell, bytes)?;
            Ok(Reply::Written { cell: *cell })
        }
        Command::Read { cell } => read_cell(store, *cell),
        Command::Take { cell } => {
            if store.can_take(*cell) {
                Ok(Reply::Free { cell: *cell })
            } else {
                Ok(Reply::Taken { cell: *cell })
            }
        }
    }
}

// What a keep answers to a command.
ghost use Rattle.std.specs.Prelude.{◌≡◌, ℕ, false, is_ok, Some};
ghost use Rattle.keepcommands.specs.Answers.{after_command, answer_of, reply_text};

use crate::command::KeepCommand;
use keeps::fault::KeepFault;
use keeps::keep::Keep;
use std::fmt;

#[derive(Clone, Copy, PartialEq, Eq, Debug)]
pub enum KeepReply {
    Put { group: u16, slot: u32 },
    At { locator: u64 },
    Struck { group: u16, pairs: u32 },
    Live { group: u16 },
    Room { group: u16 },
    Full { group: u16 },
}

// The reply's word, and its numbers.
impl fmt::Display for KeepReply {
    ghost output = { λ reply. Some (reply_text reply) };

    fn fmt<W: fmt::Write>(&self, f: &mut fmt::Formatter<W>) -> fmt::Result {
        match *self {
            KeepReply::Put { group, slot } => write!(f, "put {group} {slot}"),
            KeepReply::At { locator } => write!(f, "at {locator}"),
            KeepReply::Struck { group, pairs } => write!(f, "struck {group} {pairs}"),
            KeepReply::Live { group } => write!(f, "live {group}"),
            KeepReply::Room { group } => write!(f, "room {group}"),
            KeepReply::Full { group } => write!(f, "none {group}"),
        }
    }
}

// Asks the keep; a command other than an accepted put or strike leaves every group as it was, and a refused one all of the keep.
pub fn answer<K: Keep>(keep: &mut K, command: KeepCommand) -> Result<KeepReply, KeepFault>
    ensures value { result ≡ answer_of (K.Keep.groups keep.old) (K.Keep.pairs keep.old) (K.Keep.room keep.old) command }
    ensures after { (i : ℕ) → K.Keep.pairs keep.new i ≡ after_command result (K.Keep.pairs keep.old) command i }
    ensures same { is_ok result ≡ false → keep.new ≡ keep.old }
{
    match command {
        KeepCommand::Put {
            group,
            cell,
            locator,
        } => {
            let slot = keep.put(group, cell, locator)?;
            Ok(KeepReply::Put { group, slot })
        }
        KeepCommand::Get { group, slot, cell } => Ok(KeepReply::At {
            locator: keep.get(group, slot, cell)?,
        }),
        KeepCommand::Strike { group } => {
            let pairs = keep.strike(group)?;
            Ok(KeepReply::Struck { group, pairs })
        }
        KeepCommand::Check { group } => {
            keep.check(group)?;
            Ok(KeepReply::Live { group })
        }
        KeepCommand::Room { group } => {
            if keep.has_room(group) {
                Ok(KeepReply::Room { group })
            } else {
                Ok(KeepReply::Full { group })
            }
        }
    }
}

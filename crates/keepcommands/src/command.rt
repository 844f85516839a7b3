// A line that asks a keep: `put GROUP CELL LOCATOR`, `get GROUP SLOT CELL`, `strike GROUP`, `check GROUP` or `room GROUP`.
ghost use Rattle.std.specs.Prelude.{◌≡◌};
ghost use Rattle.keepcommands.specs.Commands.{command_of, get_fields, put_fields, rest_fields, verb_of};

use lines::fault::LineFault;
use lines::field::Fields;
use lines::parse::FromField;

#[derive(Clone, Copy, PartialEq, Eq, Debug)]
pub enum KeepCommand {
    Put { group: u16, cell: u32, locator: u64 },
    Get { group: u16, slot: u32, cell: u32 },
    Strike { group: u16 },
    Check { group: u16 },
    Room { group: u16 },
}

// What a line's first field asks for.
#[derive(Clone, Copy, PartialEq, Eq, Debug)]
pub enum Verb {
    Put,
    Get,
    Strike,
    Check,
    Room,
}

impl FromField for Verb {
    ghost meaning = { verb_of };

    fn from_field(text: &[u8]) -> Option<Verb> {
        match text {
            b"put" => Some(Verb::Put),
            b"get" => Some(Verb::Get),
            b"strike" => Some(Verb::Strike),
            b"check" => Some(Verb::Check),
            b"room" => Some(Verb::Room),
            _ => None,
        }
    }
}

fn read_put(fields: &mut Fields) -> Result<KeepCommand, LineFault>
    ensures { result ≡ put_fields fields.old }
{
    let group = fields.value()?;
    let cell = fields.value()?;
    let locator = fields.last_value()?;
    Ok(KeepCommand::Put {
        group,
        cell,
        locator,
    })
}

fn read_get(fields: &mut Fields) -> Result<KeepCommand, LineFault>
    ensures { result ≡ get_fields fields.old }
{
    let group = fields.value()?;
    let slot = fields.value()?;
    let cell = fields.last_value()?;
    Ok(KeepCommand::Get { group, slot, cell })
}

// The fields after the first.
fn read_rest(verb: Verb, fields: &mut Fields) -> Result<KeepCommand, LineFault>
    ensures { result ≡ rest_fields verb fields.old }
{
    match verb {
        Verb::Put => read_put(fields),
        Verb::Get => read_get(fields),
        Verb::Strike => Ok(KeepCommand::Strike {
            group: fields.last_value()?,
        }),
        Verb::Check => Ok(KeepCommand::Check {
            group: fields.last_value()?,
        }),
        Verb::Room => Ok(KeepCommand::Room {
            group: fields.last_value()?,
        }),
    }
}

impl KeepCommand {
    // What a line asks; 15 LINE where it is malformed.
    pub fn read(line: &[u8]) -> Result<KeepCommand, LineFault>
        ensures { result ≡ command_of line.now }
    {
        let mut fields = Fields::new(line);
        let verb = fields.value()?;
        read_rest(verb, &mut fields)
    }
}

// The line that asks for a tree: `set KIND RULE m k L t G`.
ghost use Rattle.std.specs.Prelude.{◌≡◌};
ghost use Rattle.lines.specs.Readers.{onward};
ghost use Rattle.listing.specs.Wishes.{kind_of, numbers_field, scheme_field, scheme_of, set_line};

use lines::fault::LineFault;
use lines::field::Fields;
use lines::parse::FromField;
use trees::settings::{Scheme, Settings};

// The kind of the keys that will come.
#[derive(Clone, Copy, PartialEq, Eq, Debug)]
pub enum Kind {
    Num,
    Code,
}

// What a `set` line asks for, not yet checked.
#[derive(Clone, Copy)]
pub struct Wish {
    pub kind: Kind,
    pub settings: Settings,
    // G, the number of groups.
    pub groups: u64,
}

impl FromField for Kind {
    ghost meaning = { kind_of };

    fn from_field(text: &[u8]) -> Option<Kind> {
        match text {
            b"num" => Some(Kind::Num),
            b"code" => Some(Kind::Code),
            _ => None,
        }
    }
}

// The scheme of this name.
fn scheme_named(text: &[u8]) -> Option<Scheme>
    ensures { result ≡ scheme_of text.now }
{
    match text {
        b"thin" => Some(Scheme::Thin),
        b"fat" => Some(Scheme::Fat),
        b"trie" => Some(Scheme::Trie),
        _ => None,
    }
}

// The scheme in the next field: trait and type are both another crate's, so no `impl FromField` can stand here.
fn read_scheme(fields: &mut Fields) -> Result<Scheme, LineFault>
    ensures value { result ≡ scheme_field fields.old }
    ensures onward { fields.new ≡ onward fields.old }
{
    let field = fields.text()?;
    scheme_named(field.text).ok_or(field.wrong())
}

// The numbers m, k, L, t and G, and then no more fields.
fn read_numbers(fields: &mut Fields, kind: Kind, scheme: Scheme) -> Result<Wish, LineFault>
    ensures { result ≡ numbers_field kind scheme fields.old }
{
    let cells = fields.value()?;
    let children = fields.value()?;
    let levels = fields.value()?;
    let tries = fields.value()?;
    let groups = fields.last_value()?;
    Ok(Wish {
        kind,
        settings: Settings {
            scheme,
            cells,
            children,
            levels,
            tries,
        },
        groups,
    })
}

impl Wish {
    // What a line asks for; 15 LINE where it is malformed.
    pub fn read(line: &[u8]) -> Result<Wish, LineFault>
        ensures { result ≡ set_line line.now }
    {
        let mut fields = Fields::new(line);
        fields.word(b"set")?;
        let kind = fields.value()?;
        let scheme = read_scheme(&mut fields)?;
        read_numbers(&mut fields, kind, scheme)
    }
}

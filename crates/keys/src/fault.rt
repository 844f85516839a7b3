// Why bytes, a number or a text are refused as a key.
ghost use Rattle.keys.specs.Refusal.{key_number, key_detail};

use refusals::Refusal;

#[derive(Clone, Copy, PartialEq, Eq, Debug)]
pub enum KeyFault {
    // 4 KEY: not a key of this kind.
    Inadmissible,
}

impl Refusal for KeyFault {
    ghost number_of = { key_number };

    ghost detail_of = { key_detail };

    fn number(&self) -> u32 {
        match self {
            KeyFault::Inadmissible => 4,
        }
    }

    fn detail(&self) -> Option<u64> {
        match self {
            KeyFault::Inadmissible => None,
        }
    }
}

// The refusal of a malformed line.
ghost use Rattle.lines.specs.Fault.{refusal_number, refusal_detail};

use refusals::Refusal;

// The first field that is wrong, missing or extra, counted from 1; 0 where the line as a whole is, as an overlong one.
#[derive(Clone, Copy, PartialEq, Eq, Debug)]
pub struct LineFault {
    pub field: u32,
}

// LINE, with the field.
impl Refusal for LineFault {
    ghost number_of = { refusal_number };

    ghost detail_of = { refusal_detail };

    fn number(&self) -> u32 {
        15
    }

    fn detail(&self) -> Option<u64> {
        Some(u64::from(self.field))
    }
}

// Why a line of the batch is refused.
ghost use Rattle.std.specs.Prelude.{◌≡◌};
ghost use Rattle.listing.specs.Refusal.{refusal_number, refusal_detail};
ghost use Rattle.listing.specs.declared.fault.Fault.TheVariants.{Line as InLine, Key as InKey, Rule as InRule, Memory as NoMemory};

use keys::fault::KeyFault;
use lines::fault::LineFault;
use refusals::Refusal;
use std::alloc::{AllocError, AllocFailed};
use trees::fault::RuleFault;
use trees::settings::Coefficient;

#[derive(Clone, Copy, PartialEq, Eq, Debug)]
pub enum Fault {
    Line(LineFault),
    Key(KeyFault),
    Rule(RuleFault),
    // Want of memory: no refusal of the rules, so its number is 0. An optional number would burden every refusal for this one.
    Memory,
}

impl Refusal for Fault {
    ghost number_of = { refusal_number };

    ghost detail_of = { refusal_detail };

    fn number(&self) -> u32 {
        match self {
            Fault::Line(fault) => fault.number(),
            Fault::Key(fault) => fault.number(),
            Fault::Rule(fault) => fault.number(),
            Fault::Memory => 0,
        }
    }

    fn detail(&self) -> Option<u64> {
        match self {
            Fault::Line(fault) => fault.detail(),
            Fault::Key(fault) => fault.detail(),
            Fault::Rule(fault) => fault.detail(),
            Fault::Memory => None,
        }
    }
}

impl From<LineFault> for Fault {
    ghost from_gives = { λ x y. y ≡ InLine x };

    fn from(line: LineFault) -> Fault {
        Fault::Line(line)
    }
}

impl From<KeyFault> for Fault {
    ghost from_gives = { λ x y. y ≡ InKey x };

    fn from(key: KeyFault) -> Fault {
        Fault::Key(key)
    }
}

impl From<RuleFault> for Fault {
    ghost from_gives = { λ x y. y ≡ InRule x };

    fn from(rule: RuleFault) -> Fault {
        Fault::Rule(rule)
    }
}

impl From<AllocError> for Fault {
    ghost from_gives = { λ x y. y ≡ NoMemory };

    fn from(_: AllocError) -> Fault {
        Fault::Memory
    }
}

impl From<AllocFailed<Coefficient>> for Fault {
    ghost from_gives = { λ x y. y ≡ NoMemory };

    fn from(_: AllocFailed<Coefficient>) -> Fault {
        Fault::Memory
    }
}

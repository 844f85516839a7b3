// Why an archive refuses a call.
ghost use Rattle.std.specs.Prelude.{◌≡◌};
ghost use Rattle.law.specs.Refusal.{archive_detail, archive_number};
ghost use Rattle.law.specs.declared.fault.ArchiveFault.TheVariants.{Store as InStore, Keep as InKeep};

use keeps::fault::KeepFault;
use refusals::Refusal;
use stores::fault::StoreFault;

#[derive(Clone, Copy, PartialEq, Eq, Debug)]
pub enum ArchiveFault {
    // 4 KEY: not admissible.
    Key,
    // 7 TWICE: an entry of this key stands at the cell.
    Twice(u32),
    // 8 FULL PATH: no cell of the key's path is blank.
    FullPath,
    // What the store refuses.
    Store(StoreFault),
    // What the keep refuses.
    Keep(KeepFault),
}

impl Refusal for ArchiveFault {
    ghost number_of = { archive_number };

    ghost detail_of = { archive_detail };

    fn number(&self) -> u32 {
        match self {
            ArchiveFault::Key => 4,
            ArchiveFault::Twice(_) => 7,
            ArchiveFault::FullPath => 8,
            ArchiveFault::Store(fault) => fault.number(),
            ArchiveFault::Keep(fault) => fault.number(),
        }
    }

    fn detail(&self) -> Option<u64> {
        match self {
            ArchiveFault::Key | ArchiveFault::FullPath => None,
            ArchiveFault::Twice(cell) => Some(u64::from(*cell)),
            ArchiveFault::Store(fault) => fault.detail(),
            ArchiveFault::Keep(fault) => fault.detail(),
        }
    }
}

impl From<StoreFault> for ArchiveFault {
    ghost from_gives = { λ x y. y ≡ InStore x };

    fn from(fault: StoreFault) -> ArchiveFault {
        ArchiveFault::Store(fault)
    }
}

impl From<KeepFault> for ArchiveFault {
    ghost from_gives = { λ x y. y ≡ InKeep x };

    fn from(fault: KeepFault) -> ArchiveFault {
        ArchiveFault::Keep(fault)
    }
}

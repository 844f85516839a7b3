// Why a store refuses.
ghost use Rattle.std.specs.Prelude.{◌≡◌, None};
ghost use Rattle.stores.specs.Refusal.{store_number, store_detail, at_own, seen_as, set_up_number};

use refusals::Refusal;

#[derive(Clone, Copy, PartialEq, Eq, Debug)]
pub enum StoreFault {
    // 14 LENGTH: the bytes or the buffer have another length than a cell.
    Length,
    // 11 BEYOND: the cell is outside the store.
    Beyond(u32),
    // 12 WRITTEN: the cell is written already.
    Written(u32),
    // 9 NO CELL: the cell is blank and cannot be taken.
    NoCell(u32),
}

impl Refusal for StoreFault {
    ghost number_of = { store_number };

    ghost detail_of = { store_detail };

    fn number(&self) -> u32 {
        match self {
            StoreFault::Length => 14,
            StoreFault::Beyond(_) => 11,
            StoreFault::Written(_) => 12,
            StoreFault::NoCell(_) => 9,
        }
    }

    fn detail(&self) -> Option<u64> {
        match self {
            StoreFault::Length => None,
            StoreFault::Beyond(cell) | StoreFault::Written(cell) | StoreFault::NoCell(cell) => {
                Some(u64::from(*cell))
            }
        }
    }
}

impl StoreFault {
    // The same refusal, with the number that the cell has in a store above.
    pub fn renumbered(self, cell: u32) -> StoreFault
        ensures { result ≡ at_own cell self }
    {
        match self {
            StoreFault::Length => StoreFault::Length,
            StoreFault::Beyond(_) => StoreFault::Beyond(cell),
            StoreFault::Written(_) => StoreFault::Written(cell),
            StoreFault::NoCell(_) => StoreFault::NoCell(cell),
        }
    }
}

// What a store below answered, with the number that the cell has in the store above.
pub fn seen_from_above<T>(answer: Result<T, StoreFault>, cell: u32) -> Result<T, StoreFault>
    ensures { result ≡ seen_as cell answer }
{
    answer.map_err(|fault| fault.renumbered(cell))
}

// Why a store cannot be set up or opened.
#[derive(Clone, Copy, PartialEq, Eq, Debug)]
pub enum SetUpFault {
    // 1 SETTING: a number outside its range.
    Setting,
    // 3 SIZE: past the end of what is below, above 1048576 cells, or memory too short.
    Size,
}

impl Refusal for SetUpFault {
    ghost number_of = { set_up_number };

    ghost detail_of = { λ f. None };

    fn number(&self) -> u32 {
        match self {
            SetUpFault::Setting => 1,
            SetUpFault::Size => 3,
        }
    }

    fn detail(&self) -> Option<u64> {
        match self {
            SetUpFault::Setting | SetUpFault::Size => None,
        }
    }
}

// Why a pile is not played to the end.
use piles::join::NoJoin;
use piles::window::NoWindow;
use std::alloc::AllocError;
use std::io;
use stores::fault::SetUpFault;

#[derive(Drop)]
pub enum Stop {
    // It cannot be set up.
    Refused(SetUpFault),
    // Reading or printing failed, or memory ran out.
    Failed(io::Error),
}

impl From<SetUpFault> for Stop {
    fn from(fault: SetUpFault) -> Stop {
        Stop::Refused(fault)
    }
}

impl<S: Drop> From<NoWindow<S>> for Stop {
    fn from(refused: NoWindow<S>) -> Stop {
        Stop::Refused(refused.fault)
    }
}

impl<S: Drop, T: Drop> From<NoJoin<S, T>> for Stop {
    fn from(refused: NoJoin<S, T>) -> Stop {
        Stop::Refused(refused.fault)
    }
}

impl From<io::Error> for Stop {
    fn from(error: io::Error) -> Stop {
        Stop::Failed(error)
    }
}

impl From<AllocError> for Stop {
    fn from(error: AllocError) -> Stop {
        Stop::Failed(error.into())
    }
}

// Why a keep refuses.
ghost use Rattle.std.specs.Prelude.{◌≡◌, Some};
ghost use Rattle.keeps.specs.Refusal.{keep_number, keep_detail};

use refusals::Refusal;

#[derive(Clone, Copy, PartialEq, Eq, Debug)]
pub enum KeepFault {
    // 5 GROUP: there is no such group.
    Group(u16),
    // 6 GONE: the group is retired.
    Gone(u16),
    // 10 NO SLOT: the group is live and takes no pair.
    NoSlot(u16),
    // 13 STRANGER: the slot was not given out, or was given to another cell than the one asked with.
    Stranger(u32),
}

impl Refusal for KeepFault {
    ghost number_of = { keep_number };

    ghost detail_of = { λ f. Some (keep_detail f) };

    fn number(&self) -> u32 {
        match self {
            KeepFault::Group(_) => 5,
            KeepFault::Gone(_) => 6,
            KeepFault::NoSlot(_) => 10,
            KeepFault::Stranger(_) => 13,
        }
    }

    fn detail(&self) -> Option<u64> {
        Some(match self {
            KeepFault::Group(group) | KeepFault::Gone(group) | KeepFault::NoSlot(group) => {
                u64::from(*group)
            }
            KeepFault::Stranger(cell) => u64::from(*cell),
        })
    }
}

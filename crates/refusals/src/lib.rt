// Why a call is refused, for all who report it: a number, and mostly a detail.
#![tactic(auto)]

ghost use Rattle.std.specs.Prelude.{◌≡◌, ℕ, Option};

// The refusals of one kind of call.
pub trait Refusal {
    // The number of each, by which it is known.
    ghost number_of: { Self → ℕ };

    // What it says besides, as the cell or the group that was asked for.
    ghost detail_of: { Self → Option ℕ };

    fn number(&self) -> u32
        ensures { result ≡ number_of self.now };

    fn detail(&self) -> Option<u64>
        ensures { result ≡ detail_of self.now };
}

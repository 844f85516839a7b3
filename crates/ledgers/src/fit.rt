// The numbers that a ledger may have, and the memory that they take.
ghost use Rattle.std.specs.Prelude.{◌≡◌, Ok, Err, MatchResult, OnOk};
ghost use Rattle.ledgers.specs.Ledgers.{Fitting, ledger_fit, ledger_size};

use crate::ledger::MOST_LINES;
use crate::lines::LINE;
use keeps::keep::MOST_GROUPS;
use stores::fault::SetUpFault;

// How many bytes so many groups and lines take, where memory of so many bytes holds them.
pub(crate) fn fit(groups: u32, lines: u32, bytes: usize) -> Result<usize, SetUpFault>
    ensures value { MatchResult result (λ n. (n ≡ ledger_size groups lines) × (ledger_fit groups lines bytes ≡ Ok tt)) (λ f. ledger_fit groups lines bytes ≡ Err f) }
    ensures enough { OnOk result (Fitting groups lines bytes) }
{
    if !(1..=MOST_GROUPS).contains(&groups) || !(1..=MOST_LINES).contains(&lines) {
        return Err(SetUpFault::Setting);
    }
    let size = groups as usize + 4 + lines as usize * LINE;
    if size > bytes {
        return Err(SetUpFault::Size);
    }
    Ok(size)
}

// Where a walk stops, and what the calls answer.
use entries::entry::Entry;
use keeps::fault::KeepFault;

// Where a walk over a key's path stops, and after how many cells read.
#[derive(Clone, Copy, PartialEq, Eq, Debug)]
pub enum Stop {
    // At a blank cell.
    AtBlank {
        cell: u32,
        probes: u32,
    },
    // At an entry of this key.
    AtEntry {
        cell: u32,
        probes: u32,
        entry: Entry,
    },
    // At no cell: all of the path was read.
    AtEnd {
        probes: u32,
    },
}

// What a search answers. Cell and probes stand in each case by name, as the rules tell them: a pair of them would be one name more.
#[derive(Clone, Copy, PartialEq, Eq, Debug)]
pub enum Verdict {
    // No entry of this key, and its next filing would stand at this cell.
    Absent {
        cell: u32,
        probes: u32,
    },
    // No entry of this key, and no blank cell on its path.
    Exhausted {
        probes: u32,
    },
    // Filed, and where the drawing lies.
    Found {
        locator: u64,
        cell: u32,
        probes: u32,
    },
    // Filed, in a group that is retired.
    Retired {
        cell: u32,
        probes: u32,
    },
    // An entry of this key that the keep does not know, with the keep's own refusal: somebody else wrote it.
    Foreign {
        cause: KeepFault,
        cell: u32,
        probes: u32,
    },
}

// What an accepted filing answers.
#[derive(Clone, Copy, PartialEq, Eq, Debug)]
pub struct Receipt {
    pub cell: u32,
    pub probes: u32,
    pub slot: u32,
    pub filing: u32,
}

// What an accepted call answers.
#[derive(Clone, Copy, PartialEq, Eq, Debug)]
pub enum Answer {
    Filed(Receipt),
    Searched(Verdict),
    Struck { pairs: u32 },
    Written,
}

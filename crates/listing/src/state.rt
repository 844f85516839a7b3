// What the listing keeps between two lines, and what it answers to one.
use crate::draft::Draft;
use crate::wish::Kind;
use paths::rule::Rule;

#[derive(Drop)]
pub enum State {
    // For a `set` line.
    Waiting,
    // For the `coef` line of the next level.
    Collecting(Draft),
    // For keys.
    Ready { kind: Kind, rule: Rule },
}

// What is printed for a line that is accepted.
// (No `Display`: a path is printed behind the caller's key, and nothing is printed for a line that only goes on.)
#[derive(Drop)]
pub enum Reply {
    Nothing,
    Total { total: u32 },
    Path { cells: Vec<u32> },
}

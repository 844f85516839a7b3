// Keys of an archive: 12 bytes that name one drawing, in two kinds, and what they are hashed to.
#![tactic(auto)]

pub mod code;
pub mod code_kind;
pub mod fault;
pub mod hash;
pub mod kind;
pub mod sheet;
pub mod sheet_kind;

// What is written in a cell for a filed drawing.

// The key's bytes, the group and the slot under which the keep has the drawing's locator, and the filing number: the how
// manieth filing it was.
#[derive(Clone, Copy, PartialEq, Eq, Debug)]
pub struct Entry {
    pub key: [u8; 12],
    pub group: u16,
    pub slot: u32,
    pub filing: u32,
}

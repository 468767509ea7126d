// Entries of the trail and bounds of rows.
use super::sides::Side;

// An entry of the trail. On side low it says that the unknown is at least the bound, on side high at most. Its cause is the line of the
// log that is its reason; a decision has none.
#[derive(Clone, Copy, Debug, PartialEq, Eq)]
pub struct Entry {
    pub unknown: usize,
    pub side: Side,
    pub bound: i32,
    pub cause: Option<usize>,
}

// What a row says of one unknown: at least the value (low) or at most (high).
#[derive(Clone, Copy, Debug, PartialEq, Eq)]
pub struct Bound {
    pub side: Side,
    pub value: i32,
}

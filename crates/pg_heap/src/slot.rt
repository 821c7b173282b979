use crate::Version;

/// What has become of a version.
#[derive(Clone, Copy, Debug, PartialEq, Eq)]
pub enum State {
    /// It was placed, and waits for its row.
    Placed,
    /// It is one of its row.
    Settled,
    /// It was given up or rolled back.
    Dead,
}

/// A version in the heap, with its row and its links.
#[derive(Debug, Drop)]
pub struct Slot {
    /// The number of its row.
    pub row: u64,
    pub version: Version,
    pub state: State,
    /// The number of the version before it in its row, if it is linked to one.
    pub before: Option<u64>,
    /// The number of the version after it in its row, if it is linked to one.
    pub after: Option<u64>,
}

/// Which version of its row a draft is to be.
#[derive(Clone, Copy, Debug, PartialEq, Eq)]
pub enum DraftKind {
    /// The first: the values of a row that was placed.
    First,
    /// The next: new values of a row that is there, which were staged.
    Next,
}

/// The last draft with values that was made for a row number, and who made it.
#[derive(Clone, Copy, Debug, PartialEq, Eq)]
pub struct Placing {
    /// The number of the session.
    pub session: u32,
    /// The number of the version, counted from 1.
    pub version: u64,
    pub kind: DraftKind,
}

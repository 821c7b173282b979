/// Some of the version numbers of a heap, in a row.
#[derive(Clone, Copy, Debug, PartialEq, Eq)]
pub struct Piece {
    /// The first number.
    pub first: u64,
    /// How many numbers there are, at most 64.
    pub count: u32,
    /// The number after them, or `None` where no number is left.
    pub next: Option<u64>,
}

use crate::Ring;

/// What comes of a wait that a session asks for.
#[derive(Debug, Drop)]
pub enum WaitAnswer {
    /// It waits.
    Waiting,
    /// The wait would close this ring, and does not begin.
    Cycle(Ring),
}

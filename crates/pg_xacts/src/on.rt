/// Until when a session waits for another.
#[derive(Clone, Copy, Debug, PartialEq, Eq)]
pub enum Until {
    /// Until its transaction ends.
    Transaction,
    /// Until its candidate has its act, is withdrawn, or its transaction ends.
    Candidate,
}

/// What a session waits for: another session, and until when.
#[derive(Clone, Copy, Debug, PartialEq, Eq)]
pub struct On {
    pub session: u32,
    pub until: Until,
}

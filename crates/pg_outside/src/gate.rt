/// The label of what a session has just done, for a gate that looks on.
#[derive(Clone, Copy, Debug, PartialEq, Eq)]
pub enum Label {
    Snapped,
    Found,
    Locked,
    Placed,
    Claimed,
    /// A row was inserted, updated, deleted, passed over or picked.
    Acted,
    /// A statement was replied to, or failed.
    Replied,
    /// A reader beside the sessions has taken a reading.
    Read,
}

/// Who looks on between two steps of a session, where no lock is held. It answers nothing.
pub trait Gate {
    /// The session (or the reader) of this number, from 0, has passed this label.
    fn pass(&self, session: u32, label: Label);
}

/// A gate that everybody passes at once.
#[derive(Clone, Copy, Debug, PartialEq, Eq)]
pub struct NoGate;

impl Gate for NoGate {
    fn pass(&self, _session: u32, _label: Label) {}
}

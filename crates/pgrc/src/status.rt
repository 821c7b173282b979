use pg_model::{Journal, Script};

/// How a call of the program ended.
#[derive(Clone, Copy, Debug, PartialEq, Eq)]
pub enum Status {
    /// The whole text was written.
    Done,
    /// The words are no command.
    Usage,
    /// Memory was refused, before anything was written.
    Memory,
    /// The input is no script, or one that is not run.
    Refused,
    /// The input could not be read to its end.
    ReadFault,
    /// Not the whole text could be written.
    WriteFault,
}

/// What a call of the program did.
///
/// The script and its journal are those of the run under `Done` and `WriteFault`, and empty else.
#[derive(Drop)]
pub struct Report {
    pub status: Status,
    pub script: Script,
    pub journal: Journal,
}

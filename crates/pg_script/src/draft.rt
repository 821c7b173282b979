//! What has been read of a script.
ghost use Rattle.std.specs.Prelude.{◌≡◌};
ghost use Rattle.pg_script.specs.Drafts.{empty_draft};

use pg_lists::Items;
use pg_model::{Catalogue, Lines, Mode, SetupRows};
use pg_names::{NamedItems, Names};
use std::alloc::Global;

/// A script as far as it was read.
#[derive(Drop)]
pub(crate) struct Draft {
    /// The number of the next line, counted from 1.
    pub number: u32,
    pub mode: Mode,
    pub sessions: Names,
    pub catalogue: Catalogue,
    pub setup: SetupRows,
    pub lines: Lines,
    /// Whether there was a line that is neither a setup line nor a comment.
    pub past_setup: bool,
}

impl Draft {
    /// The draft of a script of which the first line was read.
    pub(crate) fn new(alloc: Global, mode: Mode) -> Draft
        ensures { result ≡ empty_draft mode }
    {
        Draft {
            number: 2,
            mode,
            sessions: Names::new(alloc),
            catalogue: NamedItems::new(alloc),
            setup: Items::new(alloc),
            lines: Items::new(alloc),
            past_setup: false,
        }
    }
}

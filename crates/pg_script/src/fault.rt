//! Why bytes are not read as a script.
use pg_model::SqlError;
use std::alloc::AllocError;

/// Why a line of a script is refused. Of several reasons the first one here counts, and of the
/// faults that have a place in the line the one at the lowest place. Places count the bytes of the
/// line from 1.
#[derive(Debug, Drop)]
pub enum Reason {
    /// The script is longer than 1,048,576 bytes; told of line 0.
    Size,
    /// Line 1 is not a header.
    Header,
    /// The line has a form that is not built yet.
    Later,
    /// The line has none of the forms.
    Line,
    /// A line that orders the steps of a script stands in a free one.
    Free,
    /// A setup line stands behind a line of another form.
    Order,
    /// The line names a 33rd session.
    Sessions,
    /// A line of this form does not allow the statement.
    Place,
    /// The byte here belongs to no token.
    Byte(u32),
    /// The literal that begins here is not ended or too large.
    Literal(u32),
    /// The name that begins here is longer than 63 bytes.
    LongName(u32),
    /// The tokens before this place begin a statement, those up to it do not.
    Syntax(u32),
    /// The token here makes a path of 65 nodes.
    Depth(u32),
    /// The source that begins here is the ninth.
    Items(u32),
    /// A CREATE, or an INSERT of setup, has this error.
    Error(SqlError),
}

/// What kept bytes from being read as a script.
#[derive(Debug, Drop)]
pub enum ScriptFault {
    /// The first refused line, counted from 1, or 0 for the whole script, and the first reason to
    /// refuse it.
    Refused { line: u32, reason: Reason },
    /// The reading did not get the memory that it needs.
    Memory,
}

impl From<AllocError> for ScriptFault {
    ghost use Rattle.std.specs.Prelude.{◌≡◌};
    ghost use Rattle.pg_script.specs.declared.fault.ScriptFault.TheVariants.{Memory};

    ghost from_gives = { λ e f. f ≡ Memory };

    fn from(_error: AllocError) -> ScriptFault {
        ScriptFault::Memory
    }
}

//! The forms of a line.
use pg_names::Name;
use pg_parse_stmt::StmtTree;

/// Where what is written as a statement is none. Places count the bytes of the line from 1.
#[derive(Clone, Copy, Debug, PartialEq, Eq)]
pub enum PlaceFault {
    /// The byte here belongs to no token.
    Byte(u32),
    /// The literal that begins here is not ended or too large.
    Literal(u32),
    /// The name that begins here is longer than 63 bytes.
    LongName(u32),
    /// The tokens before this place begin a statement, those up to it do not.
    Syntax(u32),
    /// The token here makes a path of 65 nodes.
    Depth(u32),
    /// The source that begins here is the ninth.
    Items(u32),
}

/// The name of a session as a line has it, of any length, folded to lower case.
#[derive(Debug, Drop)]
pub struct SessionName {
    pub name: Name,
    /// The place of its first byte in the line, counted from 1.
    pub place: u32,
}

/// Where a session can be told to pause.
#[derive(Clone, Copy, Debug, PartialEq, Eq)]
pub enum Label {
    /// `snapped`
    Snapped,
    /// `found`
    Found,
    /// `locked`
    Locked,
    /// `placed`
    Placed,
    /// `claimed`
    Claimed,
    /// `acted`
    Acted,
}

/// What a line says.
#[derive(Drop)]
pub enum LineForm {
    /// The line is blank, or its first byte that is no blank is `#`.
    Comment,
    /// `setup: STATEMENT`
    Setup(Result<StmtTree, PlaceFault>),
    /// `SESSION: STATEMENT`
    Given(SessionName, Result<StmtTree, PlaceFault>),
    /// `pause SESSION at LABEL`
    Pause(SessionName, Label),
    /// `go SESSION`
    Go(SessionName),
    /// `cut SESSION`
    Cut(SessionName),
    /// The line has none of the other forms.
    Unknown,
}

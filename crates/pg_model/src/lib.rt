//! What a script, a statement, an error and a journal are, once they are read: catalogues,
//! statements whose names are resolved, and the entries that a run leaves.
#![tactic(auto)]

mod catalogue;
mod error;
mod journal;
mod script;
mod statement;
mod target;
#[cfg(test)]
mod tests;

pub use catalogue::{Catalogue, Check, Checks, Column, Columns, TableShape};
pub use error::{Counted, SessionNames, SqlError};
pub use journal::{Entry, EntryAct, Finished, Journal, Reply, Rows, Tables, Tag};
pub use script::{Content, Line, Lines, Mode, Script, SetupInsert, SetupRows};
pub use statement::{
    Action, Assignment, Assignments, Change, ColumnNumbers, Exprs, Insert, NamedTable,
    ProposedRows, Select, Source, Sources, Statement,
};
pub use target::Target;

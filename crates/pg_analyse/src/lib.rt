//! Analysis: names become numbers, kinds are checked, and the first error of a statement is found.
#![tactic(auto)]

mod built;
mod changes;
mod declarations;
mod inserts;
mod laws;
mod queries;
mod statements;
mod tables;

pub use built::{is_built_declaration, is_built_statement};
pub use declarations::declare;
pub use laws::{declarations_fit, statements_fit};
pub use pg_resolve::AnalyseFault;
pub use statements::analyse;

//! The rows of a table as lists of versions, kept in a heap: the newest version of a row is found
//! at once, and what a statement sees of it from the newest end.
#![tactic(auto)]

mod laws;
mod scan;
mod store;
mod versions;
mod visibility;

pub use laws::{
    attached_draft_is_stored, current_is_current, draft_changes_no_row, ended_store_keeps_its_rows,
    live_is_live, newest_is_newest, pieces_follow, placed_row_is_drawn, seen_is_seen,
    undone_store_has_no_version_of_it,
};
pub use scan::{Scan, SeenVersion};
pub use store::RowStore;

//! The tables of a world: each keeps its rows as versions by number, their drafts, and the locks on
//! them.
#![tactic(auto)]

mod changing;
mod current;
mod drafts;
mod hold;
mod laws;
mod locking;
mod placing;
mod reading;
mod set;
mod table;

pub use drafts::{
    commits_end_what_is_staged, erasing_keeps_what_is_staged, placing_keeps_what_is_staged,
    rollbacks_end_what_is_staged, rows_without_drafts_are_free, settling_keeps_what_is_staged,
    staging_stages_it, writing_ends_what_is_staged,
};
pub use hold::Hold;
pub use laws::{
    added_row_is_added, commits_keep_what_was_seen, committed_transaction_has_ended,
    erased_row_is_changed, erasing_keeps_what_was_seen, held_row_is_locked,
    locking_keeps_what_was_seen, placed_row_is_placed, placing_keeps_what_was_seen,
    rollbacks_keep_what_was_seen, rolled_back_transaction_has_ended, scanned_rows_are_seen_rows,
    settled_row_is_inserted, settling_keeps_what_was_seen, staging_keeps_what_was_seen,
    staging_shows_nothing, writing_keeps_what_was_seen, written_row_is_changed,
};
pub use placing::{DraftKind, Placing};
pub use set::TableSet;
pub use table::Table;

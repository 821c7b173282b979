//! What Read Committed permits: the moves of a world, what an entry makes of it, legal and complete
//! journals, the stepped order, and their laws, each the contract of a function that does nothing.
#![tactic(auto)]

mod held_laws;
mod laws;
mod row_laws;

pub use held_laws::{held_rows_differ, held_rows_stay, placed_rows_are_fresh};
pub use laws::{
    candidates_are_stable, deadlocks_have_their_cycle, kept_by_permitted_entries,
    legal_by_permitted_entries, legal_worlds_are_bounded, legal_worlds_are_sound,
    live_session_moves, next_session_ends, next_session_moves, one_reply_for_each_statement,
    one_stepped_journal, permitted_entries_have_their_needs, placed_rows_wait,
    schedule_settles_once, seen_rows_are_stable, some_session_moves, stepped_journal_is_legal,
    waits_form_no_cycle, weight_falls, who_is_waited_for_is_open, who_waits_has_found,
    worked_changes, worked_examples,
};
pub use row_laws::{
    changed_rows_are_held, current_is_newest_when_free, inserted_rows_are_free, locked_rows_stay,
    locks_are_compatible, one_running_writer, own_versions_are_last, rows_are_numbered,
    versions_are_named,
};

//! The world that a journal leaves, and what an open statement may do in it: tables with what is
//! placed in them, sessions with their progress, candidates, and the choices of each form of
//! statement.
#![tactic(auto)]

mod candidate;
mod laws;
mod placed;
mod session;
mod table;

pub use candidate::{Candidate, SeenRow};
pub use laws::{
    placed_row_is_added, worked_change_candidates, worked_choices, worked_ends, worked_inserts,
    worked_locking, worked_replies, worked_second_looks, worked_selects, worked_sight,
};
pub use placed::PlacedRow;
pub use session::{Block, Progress, Running, SessionView, Stage, VersionName};
pub use table::TableView;

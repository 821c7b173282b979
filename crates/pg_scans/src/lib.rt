//! The reading of tables: a statement goes over the tables that it reads, piece by piece, and what
//! it has collected is what it sees of them, whatever others do meanwhile.
#![tactic(auto)]

mod laws;
mod reading;
mod rows;

pub use laws::{
    beginning_keeps_readings, commits_keep_readings, erasing_keeps_readings,
    locking_keeps_readings, new_reading_has_collected_nothing, pieces_are_bounded,
    placing_keeps_readings, read_tables_are_seen, rollbacks_keep_readings, settling_keeps_readings,
    staging_keeps_readings, writing_keeps_readings,
};
pub use reading::Reading;

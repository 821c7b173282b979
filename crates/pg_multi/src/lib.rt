//! The locks of one row: their four strengths, which of them conflict, and the list of who holds
//! one.
#![tactic(auto)]

mod laws;
mod members;
mod row_lock;
mod strength;

pub use laws::{
    blocker_is_lowest, conflicts_are_symmetric, holder_is_not_blocked, join_keeps_others,
    join_keeps_own_blocker, join_keeps_the_stronger, joined_locks_are_compatible,
    joined_locks_ascend, key_share_conflicts_with_update, leave_keeps_blockers, leave_keeps_others,
    left_lock_is_gone, left_locks_are_compatible, left_locks_ascend,
    no_blocker_where_nobody_blocks, only_holder_is_not_blocked, own_lock_never_blocks,
    stronger_has_the_higher_rank, stronger_lock_conflicts_with_more, update_conflicts_with_all,
};
pub use members::Members;
pub use row_lock::RowLock;
pub use strength::{Strength, conflicts};

#[cfg(test)]
mod tests;

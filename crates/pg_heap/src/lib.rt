//! Versions of rows: which of them a statement sees, which is the newest and which the current one,
//! and the heap that keeps them.
#![tactic(auto)]

mod heap;
mod links;
mod piece;
mod row;
mod slot;
mod version;

pub use heap::Heap;
pub use piece::Piece;
pub use row::Row;
pub use slot::{Slot, State};
pub use version::Version;

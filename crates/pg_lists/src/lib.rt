//! Lists that contracts see as what they hold, exact copies that may want memory, and comparisons
//! that want none.
#![tactic(auto)]

mod is_same;
mod items;
mod try_copy;

pub use is_same::{IsSame, are_same};
pub use items::Items;
pub use try_copy::TryCopy;

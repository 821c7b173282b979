//! The transactions of a server: who began each, how it stands, the order of the commits, and the
//! snapshots that see a front of that order.
#![tactic(auto)]

mod laws;
mod me;
mod numbers;
mod on;
mod snapshot;
mod transaction;
mod xacts;

pub use laws::{
    begun_transaction_keeps_snapshots, committed_transaction_keeps_snapshots,
    rolled_back_transaction_keeps_snapshots,
};
pub use me::Me;
pub use on::{On, Until};
pub use snapshot::Snapshot;
pub use transaction::{Transaction, XStatus};
pub use xacts::Xacts;

#[cfg(test)]
mod tests;

//! All sessions of a script: each step adds at most one entry to the journal, and the journal stays
//! legal.
#![tactic(auto)]

mod board;
mod deadlocks;
mod effects;
mod ends;
mod fault;
mod inside;
mod machines;
mod moves;
mod queues;
mod rows;
mod schedule;
mod server;
mod session;
mod setup;
mod snapshots;
mod step;
mod tables;
mod turns;

pub use board::{Board, Step};
pub use fault::BoardFault;

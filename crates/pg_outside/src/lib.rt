//! The outside of the program: where bytes come from, where they go, and who looks on between two
//! steps of a session.
#![tactic(auto)]

mod bytes;
mod copies;
mod gate;
mod page;
mod reading;
mod reads;
mod sink;
mod source;
mod tally;
mod writes;
mod writing;

pub use bytes::{Bytes, PlainBytes};
pub use gate::{Gate, Label, NoGate};
pub use page::Page;
pub use reading::{Reading, StdinSource};
pub use reads::{ReadAll, read_all};
pub use sink::Sink;
pub use source::{Failed, Source};
pub use tally::Tally;
pub use writes::write_all;
pub use writing::{StderrSink, StdoutSink, Writing};

#[cfg(test)]
mod tests;

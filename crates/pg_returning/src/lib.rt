//! What a statement returns: the values of a list of expressions over the rows of its sources, or
//! their first error.
#![tactic(auto)]

mod evaluation;
mod fault;
mod outputs;

pub use evaluation::value_of;
pub use fault::PlanFault;
pub use outputs::output;

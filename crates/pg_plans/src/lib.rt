//! Plans: the candidates of a statement over what it sees, what its steps answer, and its reply.
#![tactic(auto)]

mod act;
mod changes;
mod evaluation;
mod inserts;
mod joins;
mod replies;
mod running;
mod selects;
mod statements;

pub use act::Act;
pub use changes::change_candidates;
pub use evaluation::fitted_for;
pub use inserts::insert_candidates;
pub use pg_returning::PlanFault;
pub use replies::{change_reply, insert_reply, proposed_values, select_reply};
pub use running::{Candidates, candidates_or_error, failure, first_running, take_up};
pub use selects::select_candidates;
pub use statements::{SeenRows, candidates, tables_of_change, tables_of_sources, tables_read};

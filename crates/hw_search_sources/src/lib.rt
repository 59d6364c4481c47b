//! The sources of a problem as a search asks them: a propagator for each, marks of those that may not
//! be quiet, and the lists of those that speak of a literal. Beside them stands by which literal a
//! search decides, and when it restarts. Nothing here has a log.
#![tactic(auto)]

mod any;
mod asking;
mod branching;
mod marking;
mod restarts;
mod speakers;

pub use any::{AnyPropagator, for_source, propagators};
pub use asking::{ask_at, goal_of, sources_of};
pub use branching::branch;
pub use marking::Marks;
pub use restarts::{luby, next_level};
pub use speakers::Speakers;

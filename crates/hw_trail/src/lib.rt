//! The trail of a search: what was decided and implied so far, and why.
//!
//! The room is always the whole room cut by the events.
#![tactic(auto)]

mod bounds;
mod cuts;
mod implied;
mod trail;

pub use hw_trail_laws::{Event, Why};
pub use trail::Trail;

//! The certified search with an adviser, who may know prices and timetables.
//!
//! Between the steps of a search an adviser is asked. What it advises is heeded line by line: tolls are
//! declared, a tariff comes into force, and a clause of prices cuts the room or is learnt from. A bound
//! that it knows is told, a timetable of its own is tested and offered, and the search closes where its
//! best timetable reaches the last bound. All of it stands on the public calls of the search.
#![tactic(auto)]

mod advised;
mod advising;
mod bounding;
mod closing;
mod heeding;
mod proposing;
mod proving;
mod stepping;

pub use advised::Advised;
pub use hw_search_laws::{Bounded, Closed, Proposed, Proved};
pub use proving::prove;

//! The goal's propagator: exact without trying rooms, by the greatest value of each ship in its
//! range and their sum, which follow the room.
#![tactic(auto)]

mod bound;
mod cutting;
mod stepping;
mod tops;
mod widening;

pub use bound::GoalBound;

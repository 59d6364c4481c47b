//! A plan's repair in words: which ships it moves, which keep their slots, which have sailed, and what
//! cargo each wins or loses against the plan.
//!
//! The text is a function of the problem, the plan and the timetable.
#![tactic(auto)]

mod cargo;
mod fate;
mod laws;
mod lines;
mod telling;

pub use fate::{Fate, fate_of, wished};
pub use laws::{
    each_is_moved, explained_rows, sums_are_cargo, total_is_of_changes, value_or_nothing,
};
pub use telling::put_repair;

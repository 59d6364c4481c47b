//! A port's restrictions in the port's own words, by their numbers in its flat problem.
//!
//! Each number has one line: the window of a ship, the separation of two ships of the same
//! direction, the sections that two ships of opposite direction share, a berth, a ship after another
//! one, or the tugs of the fleet. The restriction of that number holds of a timetable exactly where
//! what the line names does. A window's line tells what closes slots of it.
#![tactic(auto)]

mod closed;
mod laws;
mod named;
mod naming;
mod writing;

pub use laws::{each_is_named, named_by_rule, named_means, told_closes};
pub use named::{Named, Places};
pub use naming::name_restrictions;
pub use writing::{explain, explain_one};

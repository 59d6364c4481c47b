//! The course of a certificate that goes on: lines that were taken, with the checker that took them.
//!
//! More lines come from a search, or from another certificate. Each is renumbered, so that it names its
//! own clauses and tolls after those before it, and handed to the checker that has taken all of these. So
//! nothing is trusted of where a line comes from: the lines that were taken alone tell verdict and bound.
#![tactic(auto)]

mod checking;
mod going_on;
mod handing;
mod raising;
mod stop;

pub use checking::check_one;
pub use going_on::{Course, begun, last_table};
pub use handing::hand_all;
pub use raising::{IN_PLACE, Raise, raised};
pub use stop::CourseStop;

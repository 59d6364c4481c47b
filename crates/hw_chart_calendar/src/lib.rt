//! The grid over the plot of a picture whose first slot begins at a date and time.
//!
//! Its marks stand at round times of the clock: where a day begins they say which one, as `Sat 27 Mar`, elsewhere the time,
//! as `06:00`. It takes no memory.
#![tactic(auto)]

mod grid;
mod laws;

pub use grid::{midnight, put_dated_grid};
pub use laws::calendar_rows;

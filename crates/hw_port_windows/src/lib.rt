//! The report of when each ship of a port may sail, and why not.
//!
//! The slots from a ship's earliest to its latest are told in the longest runs of one kind, by the port's own drafts and its
//! tide. The text is a function of these two, and takes no memory.
#![tactic(auto)]

mod asked;
mod closings;
mod laws;
mod lines;
mod piece;
mod run;
mod status;
mod windows;

pub use closings::is_closed_in;
pub use laws::{
    drafts_are_extremes, lines_are_true, reason_true, runs_are_longest, span_is_window,
    value_exactly_outside, window_rows,
};
pub use piece::put_signed;
pub use status::full_draft;
pub use windows::put_windows;

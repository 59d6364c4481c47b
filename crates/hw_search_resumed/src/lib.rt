//! A search that goes on from the lines of a certificate, its start: in the whole problem, or in a part.
//!
//! The search itself knows of the start only the last timetable, which it is reminded of before anything
//! else. Its lines stay in memory until it ends. Then each is renumbered, so that it names its own
//! clauses and tolls after those of the start, and handed to the checker that has taken all lines before
//! it. So nothing of the search is trusted: the lines that were taken alone tell verdict and bound, and
//! whether a part is closed.
#![tactic(auto)]

mod confined;
mod parting;
mod reminder;
mod resumed;
mod resuming;

pub use confined::Confined;
pub use parting::part;
pub use reminder::Reminder;
pub use resumed::{Parted, Resumed};
pub use resuming::resume;

//! The 0-1 linear programme of a flat problem, as text for other solvers.
//!
//! It has a variable for each ship and slot with a value. The 0-1 points that satisfy it are those of the permitted
//! timetables, and its objective is their cargo. The text goes out row by row, without memory.
//!
//! For a hole of a pair the rows go over windows of slots of its two ships of which at most one is sailed in, grown by the
//! windows of other ships that the rules keep apart from all of them. For a precedence a row says that the second ship doesn't sail early where the first one has a slot or a later one.
#![tactic(auto)]

mod apart;
mod counting;
mod format;
mod groups;
mod laws;
mod limits;
mod programme;
mod rows;
mod span;
mod spans;
mod terms;
mod windows;

pub use apart::{Apart, HoleTable};
pub use format::{Format, Mark, Sense};
pub use laws::{objective_is_cargo, points_are_permitted, rows_are_few, worked_rows, worked_texts};
pub use limits::{MOST_GROUP, MOST_RULE_ROWS, MOST_SPAN_WEIGHT, MOST_SPANS, MOST_WINDOWS};
pub use programme::{put_model, put_opb};
pub use span::Span;
pub use spans::Spans;

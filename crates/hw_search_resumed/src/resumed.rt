//! What comes of a search that goes on from a start.

use hw_cert_lines::{Line, Verdict};
use hw_flat::Timetable;

/// The lines of a start with those that the search added, and what they show.
#[derive(Drop)]
pub struct Resumed {
    pub lines: Vec<Line>,
    pub verdict: Verdict,
    /// The last bound, in tenths of a tonne; none where no line shows one.
    pub bound: Option<u64>,
    /// The last timetable; none where no line has one.
    pub table: Option<Timetable>,
    /// Whether the search found as many lemmas as its budget, and the lines leave the question open.
    pub is_spent: bool,
}

/// The lines of a start with those that a search within a part added.
#[derive(Drop)]
pub struct Parted {
    pub lines: Vec<Line>,
    /// Whether the lines show that nothing in the part beats the best. If not, the search found as many
    /// lemmas as its budget.
    pub is_closed: bool,
}

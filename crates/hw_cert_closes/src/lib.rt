//! What closes a part of a problem: a clause line that is true of nothing in the part's room. Where valid
//! lines close a room, nothing permitted in it carries more than their best (`closed_room`).
//!
//! Where the clauses and sources leave nothing of a room without a decision, lines that close it are
//! found by narrowing it.
#![tactic(auto)]

mod closed;
mod closing;
mod deletions;

pub use closed::{closed_room, closing_number, is_room_closed};
pub use closing::{closing_lines, count_clauses};
pub use deletions::deleted;

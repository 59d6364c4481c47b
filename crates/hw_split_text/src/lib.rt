//! Splits of a problem into parts: a tree whose nodes bound the slot of a ship. Each timetable lies in
//! exactly one part.
//!
//! Contracts see a split as the list of its nodes, depth first. A walk over them keeps the branches that
//! still wait for their nodes, so a tree may be as deep as its text is long.
#![tactic(auto)]

mod branches;
mod fault;
mod forms;
mod laws;
mod node;
mod parts;
mod ranges;
mod reading;
mod room;
mod walk;

pub use fault::{SplitFault, SplitWord};
pub use laws::{
    literals_fit, one_part, one_text, part_rooms, parts_counted, parts_open, split_rows, text_rows,
    written_reads, written_rows,
};
pub use node::{Node, Split};
pub use parts::{count_parts, literals_of};
pub use reading::read_split;
pub use room::room_of;
pub use walk::Walk;

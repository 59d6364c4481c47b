//! The picture of a flat problem: what each ship may carry in each slot, where it sails in a timetable, to which slots it
//! alone could move, and how many tugs are held.
//!
//! The text is a function of the problem, the timetable, if there is one, and what a certificate shows. Only the moves take
//! memory. They are found first, so the writer takes none.
#![tactic(auto)]

mod bars;
mod fleets;
mod labels;
mod laws;
mod legend;
mod marks;
mod moves;
mod panels;
mod picture;
mod plan;
mod rest;
mod row;
mod rows;
mod span;
mod values;

pub use fleets::{Fleets, Found};
pub use laws::{bars_are_values, legends_fit, moves_are_permitted};
pub use legend::patch_entry;
pub use picture::{put_flat_picture, sizes};
pub use plan::Plan;
pub use rest::{bottom, put_flat_rest, slots_shown};
pub use row::Row;

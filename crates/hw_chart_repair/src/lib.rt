//! What the picture of a repaired plan has beside that of its timetable: a head with how many ships are moved, and marks: the
//! old slots of moved ships, the ships that have sailed, and the slots before those that the plan leaves.
//!
//! The text is a function of the problem, the plan, the timetable, if there is one, and what a certificate of the repair
//! shows. It takes no memory.
#![tactic(auto)]

mod heading;
mod laws;
mod legend;
mod mark;
mod marks;
mod sheet;
mod time;

pub use heading::{own_outcome, put_repair_head};
pub use laws::{ghosts_are_moved, hatched_is_not_granted, marked_have_sailed, repair_entries_fit};
pub use legend::repair_entries;
pub use mark::Spot;
pub use marks::{Sheet, put_marked_end};
pub use sheet::MARKS;

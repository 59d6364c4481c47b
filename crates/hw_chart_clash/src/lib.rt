//! The picture of a clash: a port without a timetable, over which the restrictions that can't be met together are marked in
//! red.
//!
//! A kept window marks the slots that it denies its ship, a kept pair of ships is joined by a bracket, and for a kept fleet
//! the slots are marked in which the timetable that meets all others holds more tugs than there are. The text is a function
//! of the port, its tide, and the marks with those timetables. Putting it takes no memory.
#![tactic(auto)]

mod denied;
mod drawing;
mod heading;
mod lacking;
mod laws;
mod legend;
mod mark;
mod picture;
mod sheet;

pub use laws::{clash_entries_fit, denied_slots, each_kept_is_marked, lacking_slots};
pub use mark::{Mark, Shape, Title, marks_of};
pub use picture::put_clash_picture;
pub use sheet::CLASH_MARKS;

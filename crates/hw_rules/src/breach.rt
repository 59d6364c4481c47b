//! The restriction that a timetable breaks.

use hw_model::Slot;

/// A restriction that a timetable breaks.
///
/// `slot` is the first slot in which more tugs are held than there are, where the restriction is
/// a rule on tugs; else there is none.
#[derive(Clone, Copy)]
pub struct Breach {
    pub restriction: u32,
    pub slot: Option<Slot>,
}

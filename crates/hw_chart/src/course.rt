//! What a timetable says of a ship.

ghost use Rattle.std.specs.Prelude.{◌≡◌};
ghost use Rattle.hw_chart.specs.Courses.{SailsBefore, course_of};

use hw_model::Slot;

/// What a picture says of a ship: nothing where there is no timetable, that it stays, or the slot in which it sails.
#[derive(Clone, Copy)]
pub enum Course {
    Unplanned,
    Stays,
    Sails(Slot),
}

/// The course of a ship by its slot, if there is one, where ships sail in this many slots.
pub fn course_at(slot: Option<Slot>, slots: u32) -> Course
    ensures value { result ≡ course_of slot slots }
    ensures before { SailsBefore slots result }
{
    match slot {
        None => Course::Unplanned,
        Some(slot) => {
            if slot < slots {
                Course::Sails(slot)
            } else {
                Course::Stays
            }
        }
    }
}

//! A search within a part of a problem, from a start on.

ghost use Rattle.std.specs.Prelude.{◌≡◌, ◌≤◌};
ghost use Rattle.hw_model.specs.Rooms.{RoomFits};
ghost use Rattle.hw_cert_course.specs.Courses.{CourseStands};
ghost use Rattle.hw_search_resumed.specs.Parts.{ClosesCourse, WithinPartMeets};

use crate::confined::Confined;
use crate::reminder::Reminder;
use crate::resumed::Parted;
use crate::resuming::{counted, search};
use hw_cert_closes::{closing_lines, is_room_closed};
use hw_cert_course::{Course, CourseStop, IN_PLACE, hand_all, last_table};
use hw_cert_lines::Line;
use hw_flat::{Flat, Room};
use hw_search_advice::Adviser;
use hw_search_laws::MOST_BUDGET;
use std::alloc::Global;

/// Searches within a room from the lines of a start on, with an adviser, until they show that nothing
/// in the room beats the best, or as many new lemmas are found as the budget says. Every line is one of
/// the whole problem. Where the start closes the room there is no search.
pub fn part<A: Adviser + Drop>(
    alloc: Global,
    start: Course<'_>,
    room: &Room,
    budget: u32,
    adviser: A,
) -> Result<Parted, CourseStop>
    requires stands { CourseStands start.flat.now start }
    requires room { RoomFits start.flat.now room.now }
    requires least { 1 ≤ budget }
    requires most { budget ≤ MOST_BUDGET }
    ensures { WithinPartMeets start.entry.flat.now budget start.entry.lines.items room.now result }
{
    let flat = start.flat;
    if is_room_closed(flat, &start.lines, room) {
        return Ok(Parted {
            lines: start.lines,
            is_closed: true,
        });
    }
    let by = counted(&start.lines);
    let table = last_table(alloc, &start.lines)?;
    let adviser = Confined::new(room.copy(alloc)?, Reminder::new(table, adviser));
    let (is_spent, found) = search(alloc, flat, budget, adviser);
    let course = hand_all(alloc, start, by, &found)?;
    let course = close(alloc, course, room)?;
    let is_closed = is_room_closed(flat, &course.lines, room);
    if !is_closed && !is_spent {
        return Err(CourseStop::NoMemory);
    }
    Ok(Parted {
        lines: course.lines,
        is_closed,
    })
}

/// Takes the lines that close the room without a decision, if there are some.
fn close<'f>(alloc: Global, course: Course<'f>, room: &Room) -> Result<Course<'f>, CourseStop>
    requires stands { CourseStands course.flat.now course }
    requires room { RoomFits course.flat.now room.now }
    ensures { ClosesCourse course.entry result }
{
    if is_room_closed(course.flat, &course.lines, room) {
        return Ok(course);
    }
    match closing_lines(alloc, course.flat, &course.lines, course.best(), room)? {
        Some(lines) => hand_all(alloc, course, IN_PLACE, &lines),
        None => Ok(course),
    }
}

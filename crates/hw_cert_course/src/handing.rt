//! Lines of another origin, handed to the checker of the lines before them.

ghost use Rattle.std.specs.Prelude.{All};
ghost use Rattle.hw_cert_lines.specs.Valid.{LineFits};
ghost use Rattle.hw_cert_course.specs.Courses.{HandMeets, HandsAllToCourse, CourseStands};

use crate::going_on::Course;
use crate::raising::{Raise, raised};
use crate::stop::CourseStop;
use hw_cert_lines::Line;
use std::alloc::Global;

/// Takes lines of the problem, each with its numbers raised, but for those that say no
/// more than the lines before.
pub fn hand_all<'f>(
    alloc: Global,
    mut course: Course<'f>,
    by: Raise,
    found: &[Line],
) -> Result<Course<'f>, CourseStop>
    requires stands { CourseStands course.flat.now course }
    requires fit { All (LineFits course.flat.now) found.now }
    ensures { HandsAllToCourse course.entry found.now result }
{
    for line in found {
        match hand(alloc, course, by, line) {
            Ok(next) => course = next,
            Err(stop) => return Err(stop),
        }
    }
    Ok(course)
}

/// The same of one line.
fn hand<'f>(
    alloc: Global,
    course: Course<'f>,
    by: Raise,
    line: &Line,
) -> Result<Course<'f>, CourseStop>
    requires stands { CourseStands course.flat.now course }
    requires fits { LineFits course.flat.now line.now }
    ensures { HandMeets course.entry line.now result }
{
    match raised(alloc, by, line)? {
        Some(line) => {
            if course.has_no_need_of(&line) {
                Ok(course)
            } else {
                course.take(line)
            }
        }
        None => Ok(course),
    }
}

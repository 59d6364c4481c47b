//! A search that goes on from a start.

ghost use Rattle.std.specs.Prelude.{◌≡◌, ◌-◌, ◌^◌, ◌≤◌, ◌∷◌, [], IfOk, length, min};
ghost use Rattle.hw_cert_lines.specs.Tolled.{tolls_of};
ghost use Rattle.hw_cert_course.specs.Courses.{CourseStands};
ghost use Rattle.hw_search_resumed.specs.Searched.{IsSearched, RaisesPast, TellsOf};
ghost use Rattle.hw_search_resumed.specs.Going.{ResumeMeets};

use crate::reminder::Reminder;
use crate::resumed::Resumed;
use hw_cert::MemoryLog;
use hw_cert_closes::count_clauses;
use hw_cert_course::{Course, CourseStop, Raise, hand_all, last_table};
use hw_cert_lines::Line;
use hw_flat::{Flat, NoMemory};
use hw_search::Solved;
use hw_search_advice::Adviser;
use hw_search_advised::prove;
use hw_search_laws::MOST_BUDGET;
use std::alloc::Global;

/// Searches on from the lines of a start, whose checker goes on with the lines that are found, until as
/// many new lemmas are found as the budget says, with an adviser. Where the start leaves nothing open
/// there is no search.
pub fn resume<A: Adviser + Drop>(
    alloc: Global,
    start: Course<'_>,
    budget: u32,
    adviser: A,
) -> Result<Resumed, CourseStop>
    requires stands { CourseStands start.flat.now start }
    requires least { 1 ≤ budget }
    requires most { budget ≤ MOST_BUDGET }
    ensures { ResumeMeets start.entry.flat.now budget start.entry.lines.items result }
{
    if !start.is_open() {
        return Ok(told(alloc, start, false)?);
    }
    let by = counted(&start.lines);
    let table = last_table(alloc, &start.lines)?;
    let (is_spent, found) = search(alloc, start.flat, budget, Reminder::new(table, adviser));
    let course = hand_all(alloc, start, by, &found)?;
    Ok(told(alloc, course, is_spent)?)
}

/// What the lines of a course show.
fn told(alloc: Global, course: Course<'_>, is_spent: bool) -> Result<Resumed, NoMemory>
    requires stands { CourseStands course.flat.now course }
    ensures { IfOk result (λ resumed. TellsOf course.entry is_spent resumed) }
{
    let is_open = course.is_open();
    let verdict = course.checker.verdict();
    let bound = course.checker.bound();
    let table = last_table(alloc, &course.lines)?;
    Ok(Resumed {
        lines: course.lines,
        verdict,
        bound,
        table,
        is_spent: is_spent && is_open,
    })
}

/// Searches, and keeps the lines. Whether the budget is spent comes first.
pub(crate) fn search<A: Adviser + Drop>(
    alloc: Global,
    flat: &Flat,
    budget: u32,
    adviser: A,
) -> (bool, Vec<Line>)
    requires least { 1 ≤ budget }
    requires most { budget ≤ MOST_BUDGET }
    ensures { IsSearched flat.now budget result.0 result.1.items }
{
    let mut log = MemoryLog::new(alloc);
    let proved = prove(alloc, flat, budget, adviser, &mut log);
    let is_spent = matches!(proved.solved, Solved::Unfinished { .. });
    (is_spent, log.into_lines())
}

/// By how much numbers of lines after these are raised: by how many clauses and tolls these have.
pub(crate) fn counted(lines: &[Line]) -> Raise
    ensures { RaisesPast lines.now result }
{
    Raise {
        clauses: count_clauses(lines),
        tolls: count_tolls(lines),
    }
}

/// How many tolls the lines declare; the greatest `u32` where there are more.
fn count_tolls(lines: &[Line]) -> u32
    ensures { result ≡ min (length (tolls_of lines.now)) (2 ^ 32 - 1) }
{
    let mut count = 0u32;
    for line in lines {
        count = count.saturating_add(toll_lines(line));
    }
    count
}

/// How many tolls the line declares: one, or none.
fn toll_lines(line: &Line) -> u32
    ensures { result ≡ length (tolls_of (line.now ∷ [])) }
{
    match line {
        Line::Toll { .. } => 1,
        _ => 0,
    }
}

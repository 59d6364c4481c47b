//! Certificates of one problem joined into one, by a split of the problem.
//!
//! Their lines are renumbered and handed, one after another, to the checker that has taken all lines
//! before. Where they close each part, the lemmas of the split's forks follow, and the line without
//! literals.

ghost use Rattle.std.specs.Prelude.{All, IfSome, option_and_then};
ghost use Rattle.hw_cert_lines.specs.Valid.{LineFits};
ghost use Rattle.hw_model.specs.Problem.{IsTimetable, shape_of};
ghost use Rattle.hw_model.specs.Timetables.{cargo};
ghost use Rattle.hw_cert_course.specs.Courses.{CourseStands};
ghost use Rattle.hw_cert_join.specs.Joining.{BestMeets, CarriesNoMore, EachCarriesNoMore, EndingMeets, FitEach, IsNoMore, JoinMeets, TakingAllMeets, TakingMeets, TellsJoined};
ghost use Rattle.hw_split_text.specs.Splits.{IsSplit};

use crate::forks::fork_lemmas;
use crate::joined::Joined;
use crate::junction::{Junction, none_joined};
use crate::parts::{Closing, closing_of};
use hw_cert_closes::count_clauses;
use hw_cert_course::{Course, CourseStop, IN_PLACE, begun, hand_all};
use hw_cert_lines::{Hints, Line};
use hw_flat::{Flat, Timetable};
use hw_lits::Clause;
use hw_rules::cargo;
use hw_split_text::Split;
use std::alloc::Global;

/// Joins certificates of a problem that was split: the best of their timetables first, then the lines of
/// each in order, without timetables that are no better, bounds that are no lower and tolls that were
/// declared before. Where the lines close each part of the split, lines follow that close the problem.
pub fn join(
    alloc: Global,
    flat: &Flat,
    split: &Split,
    certs: &[Vec<Line>],
) -> Result<Joined, CourseStop>
    requires fit { FitEach flat.now certs.now }
    requires split { IsSplit (shape_of flat.now) split.now }
    ensures { JoinMeets flat.now split.now certs.now result }
{
    let course = begun(alloc, flat, Vec::new(alloc))?;
    let course = take_best(alloc, course, certs)?;
    let course = take_all(alloc, course, certs)?;
    match closing_of(alloc, flat, split, &course.lines)? {
        Closing::Each(numbers) => {
            let course = conclude(alloc, course, split, &numbers)?;
            Ok(joined(course, None))
        }
        Closing::FirstOpen(number) => Ok(joined(course, Some(number))),
    }
}

/// Takes the lemmas of a split's forks, by the numbers of the clauses that close its parts, and the line
/// without literals. Where nothing is open none is taken.
fn conclude<'f>(
    alloc: Global,
    course: Course<'f>,
    split: &Split,
    numbers: &[u32],
) -> Result<Course<'f>, CourseStop>
    requires stands { CourseStands course.flat.now course }
    ensures { EndingMeets course.entry result }
{
    if !course.is_open() {
        return Ok(course);
    }
    let clauses = count_clauses(&course.lines);
    let lemmas = fork_lemmas(alloc, course.flat, split, numbers, clauses)?;
    let course = hand_all(alloc, course, IN_PLACE, &lemmas)?;
    end(alloc, course)
}

/// Takes a line without literals, unless one was taken, as the last lemma is one. The checker refuses any
/// other.
fn end<'f>(alloc: Global, course: Course<'f>) -> Result<Course<'f>, CourseStop>
    requires stands { CourseStands course.flat.now course }
    ensures { EndingMeets course.entry result }
{
    if !course.is_open() {
        return Ok(course);
    }
    course.offer(Line::Lemma {
        clause: Clause::of_normal(Vec::new(alloc)),
        hints: Hints {
            items: Vec::new(alloc),
        },
    })
}

/// What the lines show.
fn joined(course: Course<'_>, first_open: Option<u64>) -> Joined
    requires stands { CourseStands course.flat.now course }
    ensures { TellsJoined course.entry first_open result }
{
    let verdict = course.checker.verdict();
    let bound = course.checker.bound();
    Joined {
        lines: course.lines,
        verdict,
        bound,
        first_open,
    }
}

/// Takes the best of all timetables, if there is one.
fn take_best<'f>(
    alloc: Global,
    course: Course<'f>,
    certs: &[Vec<Line>],
) -> Result<Course<'f>, CourseStop>
    requires stands { CourseStands course.flat.now course }
    requires fit { FitEach course.flat.now certs.now }
    ensures { BestMeets course.entry certs.now result }
{
    match best_of_all(course.flat, certs) {
        Some(table) => {
            let line = Line::Table(table.copy(alloc)?);
            course.offer(line)
        }
        None => Ok(course),
    }
}

/// The timetable of the greatest cargo, the first of several.
fn best_of_all<'c>(flat: &Flat, certs: &'c [Vec<Line>]) -> Option<&'c Timetable>
    requires fit { FitEach flat.now certs.now }
    ensures listed { IfSome result (λ table. IsTimetable flat.now table.now) }
    ensures best { EachCarriesNoMore flat.now (option_and_then (λ t. cargo flat.now t.now) result) certs.now }
{
    let mut best = None;
    for cert in certs {
        best = best_of(flat, cert, best);
    }
    best
}

/// The same among the lines of a certificate and a timetable before them.
fn best_of<'c>(
    flat: &Flat,
    lines: &'c [Line],
    before: Option<&'c Timetable>,
) -> Option<&'c Timetable>
    requires fit { All (LineFits flat.now) lines.now }
    requires before { IfSome before (λ table. IsTimetable flat.now table.now) }
    ensures listed { IfSome result (λ table. IsTimetable flat.now table.now) }
    ensures before { IsNoMore (option_and_then (λ t. cargo flat.now t.now) before.entry) (option_and_then (λ t. cargo flat.now t.now) result) }
    ensures lines { All (CarriesNoMore flat.now (option_and_then (λ t. cargo flat.now t.now) result)) lines.now }
{
    let mut best = before;
    for line in lines {
        best = better(flat, line, best);
    }
    best
}

/// The line's timetable where it carries more than another one, and else that.
fn better<'c>(flat: &Flat, line: &'c Line, best: Option<&'c Timetable>) -> Option<&'c Timetable>
    requires fits { LineFits flat.now line.now }
    requires best { IfSome best (λ table. IsTimetable flat.now table.now) }
    ensures listed { IfSome result (λ table. IsTimetable flat.now table.now) }
    ensures best { IsNoMore (option_and_then (λ t. cargo flat.now t.now) best.entry) (option_and_then (λ t. cargo flat.now t.now) result) }
    ensures line { CarriesNoMore flat.now (option_and_then (λ t. cargo flat.now t.now) result) line.now }
{
    match (line, best) {
        (Line::Table(table), Some(other)) => {
            if cargo(flat, other) < cargo(flat, table) {
                Some(table)
            } else {
                Some(other)
            }
        }
        (Line::Table(table), None) => Some(table),
        _ => best,
    }
}

/// Takes the lines of all certificates.
fn take_all<'f>(
    alloc: Global,
    course: Course<'f>,
    certs: &[Vec<Line>],
) -> Result<Course<'f>, CourseStop>
    requires stands { CourseStands course.flat.now course }
    requires fit { FitEach course.flat.now certs.now }
    ensures { TakingAllMeets course.entry certs.now result }
{
    let mut junction = none_joined(alloc, course);
    for cert in certs {
        match take_cert(alloc, junction, cert) {
            Ok(next) => junction = next,
            Err(stop) => return Err(stop),
        }
    }
    Ok(junction.course)
}

/// Takes the lines of a certificate.
fn take_cert<'f>(
    alloc: Global,
    junction: Junction<'f>,
    cert: &[Line],
) -> Result<Junction<'f>, CourseStop>
    requires stands { CourseStands junction.course.flat.now junction.course }
    requires fit { All (LineFits junction.course.flat.now) cert.now }
    ensures { TakingMeets junction.entry cert.now result }
{
    let mut junction = junction.turned(alloc);
    for line in cert {
        match junction.take(alloc, line) {
            Ok(next) => junction = next,
            Err(stop) => return Err(stop),
        }
    }
    Ok(junction)
}

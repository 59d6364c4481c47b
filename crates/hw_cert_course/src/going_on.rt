//! Lines that were taken, one after another, with the checker that took them.

ghost use Rattle.std.specs.Prelude.{◌≡◌, ◌↔◌, All, IfOk, IfSome, IsTrue, false};
ghost use Rattle.hw_cert_lines.specs.Lines.{is_closed, last_table};
ghost use Rattle.hw_cert_lines.specs.Valid.{LineFits, Valid};
ghost use Rattle.hw_cert_course.specs.Courses.{CourseStands, OfferingMeets, OfferingOneMeets, TakeMeets, stop_as};
ghost use Rattle.hw_cert_course.specs.Going.{SaysNoMore};

use crate::checking::check_all;
use crate::stop::CourseStop;
use hw_cert_lines::{Line, Verdict};
use hw_check::{CheckStop, Checker};
use hw_flat::{Flat, NoMemory, Timetable};
use hw_rules::cargo;
use std::alloc::Global;

/// Lines of a problem, each taken by the checker after those before it.
#[derive(Drop)]
pub struct Course<'f> {
    pub flat: &'f Flat,
    pub checker: Checker<'f>,
    pub lines: Vec<Line>,
}

/// The course of valid lines.
pub fn begun(alloc: Global, flat: &Flat, lines: Vec<Line>) -> Result<Course<'_>, NoMemory>
    requires fit { All (LineFits flat.now) lines.items }
    requires valid { Valid flat.now lines.items }
    ensures stands { IfOk result (λ course. CourseStands flat.now course) }
    ensures same { IfOk result (λ course. course.lines.items ≡ lines.items) }
{
    let checker = check_all(alloc, flat, &lines)?;
    Ok(Course {
        flat,
        checker,
        lines,
    })
}

impl<'f> Course<'f> {
    /// Takes one more line, which says more than those before it, unless the checker refuses it.
    pub(crate) fn take(self, line: Line) -> Result<Course<'f>, CourseStop>
        requires stands { CourseStands self.flat.now self }
        requires fits { LineFits self.flat.now line }
        requires news { SaysNoMore self.flat.now self.checker.kept line → ⊥ }
        ensures { TakeMeets self.entry line result }
    {
        let Course {
            flat,
            checker,
            mut lines,
        } = self;
        let number = lines.len() as u64 + 2;
        match checker.borrowed_line(&line) {
            Ok(checker) => {
                lines.push(line)?;
                Ok(Course {
                    flat,
                    checker,
                    lines,
                })
            }
            Err(stop) => Err(stop_as(number, stop)),
        }
    }

    /// Takes one more line, unless it says no more than those before it.
    pub fn offer(self, line: Line) -> Result<Course<'f>, CourseStop>
        requires stands { CourseStands self.flat.now self }
        requires fits { LineFits self.flat.now line }
        ensures { OfferingMeets self.entry line result }
    {
        if self.has_no_need_of(&line) {
            Ok(self)
        } else {
            self.take(line)
        }
    }

    /// The same of a line, if there is one.
    pub fn offer_some(self, line: Option<Line>) -> Result<Course<'f>, CourseStop>
        requires stands { CourseStands self.flat.now self }
        requires fits { IfSome line (LineFits self.flat.now) }
        ensures { OfferingOneMeets self.entry line result }
    {
        match line {
            Some(line) => self.offer(line),
            None => Ok(self),
        }
    }

    /// Whether the line says no more than those before it: a timetable that isn't better than the best,
    /// or a bound that isn't lower than the last one.
    pub(crate) fn has_no_need_of(&self, line: &Line) -> bool
        requires fits { LineFits self.now.flat.now line.now }
        ensures { IsTrue result ↔ SaysNoMore self.now.flat.now self.now.checker.kept line.now }
    {
        match line {
            Line::Table(table) => match (cargo(self.flat, table), self.best()) {
                (Some(worth), Some(best)) => worth <= best,
                _ => false,
            },
            Line::Bound { bound } => match self.checker.bound() {
                Some(last) => last <= *bound,
                None => false,
            },
            _ => false,
        }
    }

    /// The best cargo so far.
    pub fn best(&self) -> Option<u64>
        ensures { result ≡ self.now.checker.kept.best }
    {
        match self.checker.verdict() {
            Verdict::Optimal(best) => Some(best),
            Verdict::Infeasible => None,
            Verdict::Unfinished(best) => best,
        }
    }

    /// Whether the lines leave the question open.
    pub fn is_open(&self) -> bool
        requires stands { CourseStands self.now.flat.now self.now }
        ensures { IsTrue result ↔ is_closed self.now.lines.items ≡ false }
    {
        matches!(self.checker.verdict(), Verdict::Unfinished(_))
    }
}

/// Why the line of this number isn't taken.
fn stop_as(number: u64, stop: CheckStop) -> CourseStop
    ensures { result ≡ stop_as number stop }
{
    match stop {
        CheckStop::Refused(refusal) => CourseStop::Refused { number, refusal },
        CheckStop::NoMemory => CourseStop::NoMemory,
    }
}

/// The timetable of the last table line, copied; none where no line has one.
pub fn last_table(alloc: Global, lines: &[Line]) -> Result<Option<Timetable>, NoMemory>
    ensures { IfOk result (λ table. table ≡ last_table lines.now) }
{
    let mut last = None;
    for line in lines {
        if let Line::Table(table) = line {
            last = Some(table.copy(alloc)?);
        }
    }
    Ok(last)
}

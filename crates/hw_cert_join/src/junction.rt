//! Certificates that are joined line by line.

ghost use Rattle.std.specs.Prelude.{◌≡◌, ◌∷◌, [], IfSome, None, option_and_then};
ghost use Rattle.hw_cert_lines.specs.Lines.{clause_of};
ghost use Rattle.hw_cert_lines.specs.Valid.{LineFits, TollFits};
ghost use Rattle.hw_cert_course.specs.Courses.{CourseStands};
ghost use Rattle.hw_cert_join.specs.Joining.{JunctionAdds, TakingMeets};

use crate::numbering::{Numbering, joined_tariff};
use hw_cert_closes::count_clauses;
use hw_cert_course::{Course, CourseStop, raised};
use hw_cert_lines::Line;
use hw_price_laws::{Tariff, Toll};
use std::alloc::Global;

/// The lines that were joined, and how those of the certificate at hand are numbered among them.
#[derive(Drop)]
pub struct Junction<'f> {
    pub course: Course<'f>,
    pub numbering: Numbering,
}

/// A course before any certificate is joined. It takes no memory.
pub(crate) fn none_joined(alloc: Global, course: Course<'_>) -> Junction<'_>
    ensures { result.course ≡ course.entry }
{
    Junction {
        course,
        numbering: Numbering::none(alloc),
    }
}

impl<'f> Junction<'f> {
    /// Turns to the next certificate, of which no line was taken.
    pub(crate) fn turned(mut self, alloc: Global) -> Junction<'f>
        ensures { result.course ≡ self.entry.course }
    {
        let clauses = count_clauses(&self.course.lines);
        self.numbering.turn(alloc, clauses);
        self
    }

    /// Takes the certificate's next line, with the joined numbers, unless it says no more than those before
    /// it. After a line without literals none is taken.
    pub(crate) fn take(self, alloc: Global, line: &Line) -> Result<Junction<'f>, CourseStop>
        requires stands { CourseStands self.course.flat.now self.course }
        requires fits { LineFits self.course.flat.now line.now }
        ensures { TakingMeets self.entry (line.now ∷ []) result }
    {
        if !self.course.is_open() {
            return Ok(self);
        }
        match line {
            Line::Toll { toll } => self.take_toll(alloc, toll),
            Line::Tariff { tariff } => self.take_tariff(alloc, tariff),
            _ => self.take_raised(alloc, line),
        }
    }

    /// Takes a tariff on the joined tolls.
    fn take_tariff(self, alloc: Global, tariff: &Tariff) -> Result<Junction<'f>, CourseStop>
        requires stands { CourseStands self.course.flat.now self.course }
        ensures { JunctionAdds self.entry None result }
    {
        let found = joined_tariff(alloc, tariff, &self.numbering.tolls)?;
        self.offer(found)
    }

    /// Takes a line that names no tolls.
    fn take_raised(self, alloc: Global, line: &Line) -> Result<Junction<'f>, CourseStop>
        requires stands { CourseStands self.course.flat.now self.course }
        requires fits { LineFits self.course.flat.now line.now }
        ensures { JunctionAdds self.entry (clause_of line.now) result }
    {
        let found = raised(alloc, self.numbering.by, line)?;
        self.offer(found)
    }

    /// Gives a toll the number of an equal one, which the certificate doesn't use yet, or declares it.
    fn take_toll(mut self, alloc: Global, toll: &Toll) -> Result<Junction<'f>, CourseStop>
        requires stands { CourseStands self.course.flat.now self.course }
        requires fits { TollFits self.course.flat.now toll.now }
        ensures { JunctionAdds self.entry None result }
    {
        match self.numbering.known(&self.course.lines, toll) {
            Some(place) => {
                self.numbering.name_known(place)?;
                self.offer(None)
            }
            None => {
                let line = self.course.lines.len();
                self.numbering.name_next(line)?;
                let toll = toll.copy(alloc)?;
                self.offer(Some(Line::Toll { toll }))
            }
        }
    }

    /// Offers a line to the course, if there is one.
    fn offer(self, line: Option<Line>) -> Result<Junction<'f>, CourseStop>
        requires stands { CourseStands self.course.flat.now self.course }
        requires fits { IfSome line (LineFits self.course.flat.now) }
        ensures { JunctionAdds self.entry (option_and_then clause_of line) result }
    {
        Ok(Junction {
            course: self.course.offer_some(line)?,
            numbering: self.numbering,
        })
    }
}

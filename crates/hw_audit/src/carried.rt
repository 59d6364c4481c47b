//! The laws of the plan that a day leaves, each a function without a body whose clause is the law.

ghost use Rattle.hw_audit.specs.CarriedLaws.{CarriedReads, KeepsTheDay};
ghost use Rattle.hw_audit.specs.CarriedRows.{CarriedRows};

/// A timetable meets the plan exactly where the port, with the tugs that are left, permits it, and it
/// keeps the ships that have sailed and gives each other one a slot that the events leave.
pub fn keeps_the_day()
    ensures { KeepsTheDay }
{}

/// The text of the plan reads as the plan.
pub fn carried_reads()
    ensures { CarriedReads }
{}

/// Worked rows: plans that days leave.
pub fn carried_rows()
    ensures { CarriedRows }
{}

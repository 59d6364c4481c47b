//! The laws of the texts that are no flat problems.

ghost use Rattle.hw_flat_laws.specs.Laws.{FirstBadLine, WantedRefuses};
ghost use Rattle.hw_flat_laws.specs.Plain.{PlainTugsAsBefore, FewSteps};
ghost use Rattle.hw_flat_laws.specs.Rows.{BadLineRows, BadHoursRows};

/// Where a text is refused, the lines before the named one begin a text that reads, no text that
/// has the named line too reads, and the word says what was wanted there. Where fleets have hours
/// and 4000 rules before the line need none, so that no rule that needs them may follow, the lines
/// before the last of these rules begin a text that reads.
pub fn first_bad_line()
    ensures { FirstBadLine }
{}

/// Where the lines before one begin a text that reads, and the line isn't what is wanted there, the
/// text is refused at that line, with the word for what is wanted.
pub fn wanted_refuses()
    ensures { WantedRefuses }
{}

/// Worked rows: small texts, and the line at which each is refused.
pub fn bad_line_rows()
    ensures { BadLineRows }
{}

/// Worked rows: small texts of fleets with hours, and the line at which each is refused.
pub fn bad_hours_rows()
    ensures { BadHoursRows }
{}

/// A rule on tugs without steps is the rule on one fleet: it holds of the same timetables, is
/// overfull in the same first slot, and refutes the same rooms.
pub fn plain_tugs_as_before()
    ensures { PlainTugsAsBefore }
{}

/// A fleet has at most 511 steps.
pub fn few_steps()
    ensures { FewSteps }
{}

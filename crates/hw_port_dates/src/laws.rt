//! What moments and their texts are.

ghost use Rattle.hw_port_dates.specs.Laws.{CountTells, CountsAreExact, MomentsCompose, StartReadsBack, TextTells};
ghost use Rattle.hw_port_dates.specs.Rows.{DateRows};

/// What stands some minutes after a moment is a date and a time, that many minutes later since 1970-01-01.
pub fn counts_are_exact()
    ensures { CountsAreExact }
{}

/// No two moments have the same count of minutes.
pub fn count_tells()
    ensures { CountTells }
{}

/// Some minutes later, and then some more, is as much later as both.
pub fn moments_compose()
    ensures { MomentsCompose }
{}

/// The moment 0 minutes after a start is written as the start itself.
pub fn start_reads_back()
    ensures { StartReadsBack }
{}

/// Two moments that are written alike are the same.
pub fn text_tells()
    ensures { TextTells }
{}

/// Worked rows: leap days, the ends of months and years, days of the week.
pub fn date_rows()
    ensures { DateRows }
{}

//! What marks say.

ghost use Rattle.hw_chart_calendar.specs.Rows.{CalendarRows};

/// Worked rows: times, the beginnings of days, months and years, and where marks stand.
pub fn calendar_rows()
    ensures { CalendarRows }
{}

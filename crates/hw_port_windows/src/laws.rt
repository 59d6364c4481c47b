//! What the report says.

ghost use Rattle.hw_port_windows.specs.Laws.{DraftsAreExtremes, LinesAreTrue, ReasonTrue, RunsAreLongest, SpanIsWindow, ValueExactlyOutside};
ghost use Rattle.hw_port_windows.specs.Rows.{WindowRows};

/// The runs follow one another from the first slot to the last one. The slots of each are of one kind, and the slot after it
/// is of another.
pub fn runs_are_longest()
    ensures { RunsAreLongest }
{}

/// What is said of a slot that a ship asks for is true of it: with which draft the ship sails, or what is closed for it, or
/// that the water allows less than its light draft, or that the tide table lacks a slot whose height judges the last pass of
/// its route.
pub fn reason_true()
    ensures { ReasonTrue }
{}

/// A ship has a value in a slot exactly where no reason against it is given.
pub fn value_exactly_outside()
    ensures { ValueExactlyOutside }
{}

/// The least and the greatest draft of a run are drafts of its slots, and bound the draft of each.
pub fn drafts_are_extremes()
    ensures { DraftsAreExtremes }
{}

/// The slots of which a ship's lines tell are those from its earliest to its latest.
pub fn span_is_window()
    ensures { SpanIsWindow }
{}

/// The line of a longest run is true of each of its slots, with its numbers.
pub fn lines_are_true()
    ensures { LinesAreTrue }
{}

/// Worked rows: a small port with its tide.
pub fn window_rows()
    ensures { WindowRows }
{}

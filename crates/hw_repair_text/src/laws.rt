//! What the text says: functions without a body.

ghost use Rattle.hw_repair_text.specs.Laws.{EachIsMoved, SumsAreCargo, TotalIsOfChanges, ValueOrNothing};
ghost use Rattle.hw_repair_text.specs.Rows.{ExplainedRows};

/// The ships that are told as moved are those that the repair moves, and as many as it moves.
pub fn each_is_moved()
    ensures { EachIsMoved }
{}

/// The sums are the cargo of the two timetables.
pub fn sums_are_cargo()
    ensures { SumsAreCargo }
{}

/// The sums differ by what the ships win and lose.
pub fn total_is_of_changes()
    ensures { TotalIsOfChanges }
{}

/// What a ship carries in a slot is its value there, or nothing.
pub fn value_or_nothing()
    ensures { ValueOrNothing }
{}

/// Worked rows: texts of small repairs.
pub fn explained_rows()
    ensures { ExplainedRows }
{}

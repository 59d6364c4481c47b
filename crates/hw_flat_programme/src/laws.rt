//! The laws of the programme of a flat problem.

ghost use Rattle.hw_flat_programme.specs.Laws.{ObjectiveIsCargo, PointsArePermitted, RowsAreFew};
ghost use Rattle.hw_flat_programme.specs.Worked.{WorkedRows, WorkedTexts};

/// The 0-1 points that satisfy the programme are those of the permitted timetables, one for each.
pub fn points_are_permitted()
    ensures { PointsArePermitted }
{}

/// At the point of a permitted timetable the objective is its cargo, or in OPB what that lacks of the most that all ships
/// may carry.
pub fn objective_is_cargo()
    ensures { ObjectiveIsCargo }
{}

/// The rows of small problems, worked out by hand.
pub fn worked_rows()
    ensures { WorkedRows }
{}

/// The texts of small problems, worked out by hand.
pub fn worked_texts()
    ensures { WorkedTexts }
{}

/// There are at most 49,120,040 rows.
pub fn rows_are_few()
    ensures { RowsAreFew }
{}

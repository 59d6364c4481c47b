//! Rows worked out by hand, by what they are rows of.

ghost use Rattle.hw_flat_laws.specs.Clauses.{ClauseRows};
ghost use Rattle.hw_flat_laws.specs.Numbers.{NumberRows};
ghost use Rattle.hw_flat_laws.specs.Rooms.{RoomRows};
ghost use Rattle.hw_flat_laws.specs.Rules.{RuleRows};
ghost use Rattle.hw_flat_laws.specs.Setting.{SettingRows};
ghost use Rattle.hw_flat_laws.specs.Texts.{ProblemRows};
ghost use Rattle.hw_flat_laws.specs.Words.{WordRows};

/// Worked rows: words that are numbers, and words that are none.
pub fn number_rows()
    ensures { NumberRows }
{}

/// Worked rows: lines and words of texts, and places of words.
pub fn word_rows()
    ensures { WordRows }
{}

/// Worked rows: flat problems and their texts.
pub fn problem_rows()
    ensures { ProblemRows }
{}

/// Worked rows: the first bad literal of a list.
pub fn clause_rows()
    ensures { ClauseRows }
{}

/// Worked rows: literals in rooms, denied rooms and steps of a replay.
pub fn room_rows()
    ensures { RoomRows }
{}

/// Worked rows: a room read and set.
pub fn setting_rows()
    ensures { SettingRows }
{}

/// Worked rows: restrictions by number, figures of rooms, and what timetables break.
pub fn rule_rows()
    ensures { RuleRows }
{}

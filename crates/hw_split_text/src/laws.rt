//! The laws of splits, each a function without a body whose clause is the law.

ghost use Rattle.hw_split_text.specs.Laws.{LiteralsFit, OnePart, OneSplitText, PartRooms, PartsCounted, PartsOpen, WrittenSplitReads};
ghost use Rattle.hw_split_text.specs.Rows.{SplitRows, SplitTextRows, WrittenSplitRows};

/// The parts cover the whole problem, and no two of them share a timetable: the literals of exactly one
/// part are all true of it.
pub fn one_part()
    ensures { OnePart }
{}

/// A split has as many parts as nodes that make one.
pub fn parts_counted()
    ensures { PartsCounted }
{}

/// The literals of a part are in range.
pub fn literals_fit()
    ensures { LiteralsFit }
{}

/// The literals of a part are open in turn, so that `room_of` takes them.
pub fn parts_open()
    ensures { PartsOpen }
{}

/// The room of a part has some slot for each ship, and holds the timetables of which the part's literals
/// are all true.
pub fn part_rooms()
    ensures { PartRooms }
{}

/// A split that is written reads as itself.
pub fn written_reads()
    ensures { WrittenSplitReads }
{}

/// A text that reads as a split is the one that is written.
pub fn one_text()
    ensures { OneSplitText }
{}

/// Worked rows: the parts of splits.
pub fn split_rows()
    ensures { SplitRows }
{}

/// Worked rows: what texts of splits say.
pub fn text_rows()
    ensures { SplitTextRows }
{}

/// Worked rows: the texts of splits.
pub fn written_rows()
    ensures { WrittenSplitRows }
{}

//! The laws of texts: what is written reads back, and nothing else reads so.

ghost use Rattle.hw_text.specs.Laws.{NumberSpelled, SignedSpelled, PartsJoined, EndedLinesCut};

/// A word reads as a number exactly where it is the number's one spelling.
pub fn number_spelled()
    ensures { NumberSpelled }
{}

/// A word reads as a signed number exactly where it is the number's one spelling.
pub fn signed_spelled()
    ensures { SignedSpelled }
{}

/// A text is its parts joined by the byte, and joined parts that lack the byte are cut again into
/// the same parts.
pub fn parts_joined()
    ensures { PartsJoined }
{}

/// A text is cut into lines and no byte after them exactly where it is these lines, each ended.
pub fn ended_lines_cut()
    ensures { EndedLinesCut }
{}

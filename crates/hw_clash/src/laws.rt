//! The laws of parts and of the clash, each a function without a body whose clause is the law.

ghost use Rattle.hw_clash.specs.Laws.{PartValue, PartPermits, PartFits, PartCargo, PartRules, PartOfAll, WishesMean, ClashMeans, OneClash, WrittenClashReads, OneClashText};
ghost use Rattle.hw_clash.specs.Rows.{PartRows, ClashRows, ClashTextRows};

/// The value of a ship in a slot of a part.
pub fn part_value()
    ensures { PartValue }
{}

/// A part permits exactly the timetables of which its restrictions hold.
pub fn part_permits()
    ensures { PartPermits }
{}

/// A part keeps the limits of a flat problem, and has a text.
pub fn part_fits()
    ensures { PartFits }
{}

/// What a part permits carries nothing.
pub fn part_cargo()
    ensures { PartCargo }
{}

/// The rules of a part are the problem's rules of its numbers, in order.
pub fn part_rules()
    ensures { PartRules }
{}

/// All restrictions together permit what the problem permits and all wishes grant.
pub fn part_of_all()
    ensures { PartOfAll }
{}

/// With the wishes of a plan these are the timetables that meet the plan, and without wishes those
/// that the problem permits.
pub fn wishes_mean()
    ensures { WishesMean }
{}

/// Where nothing is permitted that meets all wishes, the clash can't be met together, and none of it can be left out.
pub fn clash_means()
    ensures { ClashMeans }
{}

/// A problem with wishes has one clash.
pub fn one_clash()
    ensures { OneClash }
{}

/// A clash of a problem, written as a text, reads back as itself.
pub fn written_reads()
    ensures { WrittenClashReads }
{}

/// A clash has one text: no other one reads as it.
pub fn one_clash_text()
    ensures { OneClashText }
{}

/// Worked rows: parts.
pub fn part_rows()
    ensures { PartRows }
{}

/// Worked rows: a clash.
pub fn clash_rows()
    ensures { ClashRows }
{}

/// Worked rows: what texts of clashes say.
pub fn text_rows()
    ensures { ClashTextRows }
{}

//! What the marks say: functions without a body.

ghost use Rattle.hw_chart_clash.specs.Laws.{DeniedSlots, EachKeptIsMarked, LackingSlots};
ghost use Rattle.hw_chart_clash.specs.Legends.{ClashEntriesFit};

/// Each kept restriction has one mark, at its place in the clash, whose title is the restriction's line.
pub fn each_kept_is_marked()
    ensures { EachKeptIsMarked }
{}

/// The slots that are marked of a window are exactly those in which the port's rules give its ship no value.
pub fn denied_slots()
    ensures { DeniedSlots }
{}

/// The slots that are marked of the fleet are exactly those in which the timetable holds more tugs than it has.
pub fn lacking_slots()
    ensures { LackingSlots }
{}

/// The entries of a clash's marks have room on one line of the legend.
pub fn clash_entries_fit()
    ensures { ClashEntriesFit }
{}

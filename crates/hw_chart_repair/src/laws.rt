//! What the marks say: functions without a body.

ghost use Rattle.hw_chart_repair.specs.Legends.{RepairEntriesFit};
ghost use Rattle.hw_chart_repair.specs.Laws.{GhostsAreMoved, HatchedIsNotGranted, MarkedHaveSailed};

/// An old slot is marked exactly where the ship was planned for it and has another slot now.
pub fn ghosts_are_moved()
    ensures { GhostsAreMoved }
{}

/// A ship is marked as one that has sailed exactly where the plan keeps it in a slot in which ships sail.
pub fn marked_have_sailed()
    ensures { MarkedHaveSailed }
{}

/// The striped slots of a ship are exactly those before the earliest one that the plan leaves it.
pub fn hatched_is_not_granted()
    ensures { HatchedIsNotGranted }
{}

/// The entries of a repair's marks have room on the legend's second line.
pub fn repair_entries_fit()
    ensures { RepairEntriesFit }
{}

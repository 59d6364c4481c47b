//! What whole pictures are, and what they say.

ghost use Rattle.hw_chart_laws.specs.Alike.{FlatRowsReadBack, PortRowsReadBack};
ghost use Rattle.hw_chart_laws.specs.Bands.{FlatPartsLieApart, PortPartsLieApart};
ghost use Rattle.hw_chart_laws.specs.Lanes.{BlocksAreOccupations, LanesAreBlocks, OneWayIsSeen};
ghost use Rattle.hw_chart_laws.specs.Laws.{BarsAreSlots, FlatPicturesAreTrees, FlatPlansReadBack, FullBarsAreFullDrafts, PortPicturesAreTrees, PortPlansReadBack};
ghost use Rattle.hw_chart_laws.specs.Sheet.{FetchesNothing, HatchFetchesNothing};
ghost use Rattle.hw_chart_laws.specs.Thirds.{HatchesAreClosings, WaitsAreKept};
ghost use Rattle.hw_chart_laws.specs.Without.{ReasonsAreTold};

/// The picture of a flat problem is one element of trees.
pub fn flat_pictures_are_trees()
    ensures { FlatPicturesAreTrees }
{}

/// The picture of a port's plan is one element of trees, whatever the names of its ships, waypoints and sections are.
pub fn port_pictures_are_trees()
    ensures { PortPicturesAreTrees }
{}

/// The timetable of a flat problem can be read back from its picture.
pub fn flat_plans_read_back()
    ensures { FlatPlansReadBack }
{}

/// The timetable of a port can be read back from its picture.
pub fn port_plans_read_back()
    ensures { PortPlansReadBack }
{}

/// In the window of a ship a bar stands exactly in the slots in which the port lets the ship sail.
pub fn bars_are_slots()
    ensures { BarsAreSlots }
{}

/// A full bar reaches the top exactly in the slots in which the ship sails with its full draft.
pub fn full_bars_are_full_drafts()
    ensures { FullBarsAreFullDrafts }
{}

/// Rows of ships that are written alike show ships that may sail in the same slots, and with the same draft in each.
pub fn port_rows_read_back()
    ensures { PortRowsReadBack }
{}

/// Two rows that look the same have the same greatest value and, slot by slot, values of the same class.
pub fn flat_rows_read_back()
    ensures { FlatRowsReadBack }
{}

/// On the picture of a port no two of its tides, ships, sections and tugs share a line.
pub fn port_parts_lie_apart()
    ensures { PortPartsLieApart }
{}

/// On the picture of a flat problem no two of its ships and fleets share a line.
pub fn flat_parts_lie_apart()
    ensures { FlatPartsLieApart }
{}

/// What is drawn in the window of a section are the blocks of the ships that sail through it.
pub fn lanes_are_blocks()
    ensures { LanesAreBlocks }
{}

/// A block reaches over a slot exactly where a ship of its direction occupies the section then: where ships of both
/// directions would meet, the window has a block in each half.
pub fn blocks_are_occupations()
    ensures { BlocksAreOccupations }
{}

/// Where the port permits the timetable, no slot of a section has a block in both halves.
pub fn one_way_is_seen()
    ensures { OneWayIsSeen }
{}

/// The style sheet of every picture imports no other sheet and names no address, so that a viewer fetches nothing for it.
pub fn style_fetches_nothing()
    ensures { FetchesNothing }
{}

/// The sheet of the hatch imports no other sheet either, and what it names stands beside it in the same picture.
pub fn hatch_fetches_nothing()
    ensures { HatchFetchesNothing }
{}

/// A hatch reaches over a slot of a ship's window exactly where that is closed for the ship.
pub fn hatches_are_closings()
    ensures { HatchesAreClosings }
{}

/// Where the port permits the timetable, the bar of a ship's stay is at least as long as the ship must wait.
pub fn waits_are_kept()
    ensures { WaitsAreKept }
{}

/// Where a ship has no slot, its row names a reason exactly if that is the one against a slot for which the ship asks, as `windows`
/// tells it.
pub fn reasons_are_told()
    ensures { ReasonsAreTold }
{}

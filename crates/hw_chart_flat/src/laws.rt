//! What the picture of a flat problem says, in the words of the problem.

ghost use Rattle.hw_chart_flat.specs.Legends.{FlatLegendsFit};
ghost use Rattle.hw_chart_flat.specs.Moves.{FlatMovesArePermitted};
ghost use Rattle.hw_chart_flat.specs.Values.{BarsAreValues};

/// In the window of a ship, the bar of a slot stands above the foot exactly where the ship has a value in that slot.
pub fn bars_are_values()
    ensures { BarsAreValues }
{}

/// The level of a move is 0 exactly where the problem permits the timetable with that slot for the ship.
pub fn moves_are_permitted()
    ensures { FlatMovesArePermitted }
{}

/// The legend has two lines at most, whatever marks it names, if those after its own fill no more than a line.
pub fn legends_fit()
    ensures { FlatLegendsFit }
{}

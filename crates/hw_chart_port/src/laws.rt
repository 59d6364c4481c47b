//! What a port's picture says.

ghost use Rattle.hw_chart_port.specs.Legends.{LegendsFit};
ghost use Rattle.hw_chart_port.specs.Laws.{FleetAlwaysSuffices, MovesArePermitted, SailsBetween};

/// A sailing draft lies between the light and the full one, so that a level lies in its window.
pub fn sails_between()
    ensures { SailsBetween }
{}

/// A ship could move to a slot exactly where the port permits the timetable with that slot for it.
pub fn moves_are_permitted()
    ensures { MovesArePermitted }
{}

/// Where the port permits the timetable, its ships never hold more tugs than there are.
pub fn fleet_suffices()
    ensures { FleetAlwaysSuffices }
{}

/// The legend has two lines at most, whatever marks it names, if those after its own take no more than their room.
pub fn legends_fit()
    ensures { LegendsFit }
{}

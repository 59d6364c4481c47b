//! The numbers of a problem's restrictions and their sources, in both directions.
ghost use Rattle.std.specs.Prelude.{◌≡◌, ◌<◌};
ghost use Rattle.hw_model.specs.Timetables.{restriction_count};
ghost use Rattle.hw_model.specs.Refuting.{IsSourceOf};
ghost use Rattle.hw_model.specs.Refuting as refuting;
ghost use Rattle.hw_rules.specs.Sources as listed;

use hw_flat::{Flat, Source};

/// The source of the restriction of a number: a ship's window, or a rule.
pub fn source_of(flat: &Flat, restriction: u32) -> Source
    requires numbered { restriction < restriction_count flat.now }
    ensures value { result ≡ refuting.source_of flat.now restriction }
    ensures source { IsSourceOf flat.now result }
{
    let ships = flat.shape().ships;
    if restriction < ships {
        Source::Window { ship: restriction }
    } else {
        Source::Rule {
            place: restriction - ships,
        }
    }
}

/// The number of the restriction that a source is. Orders and the goal are none.
pub fn number_of(flat: &Flat, source: Source) -> Option<u32>
    requires source_in { IsSourceOf flat.now source }
    ensures value { result ≡ listed.number_of flat.now source }
{
    match source {
        Source::Window { ship } => Some(ship),
        Source::Rule { place } => Some(flat.shape().ships + place),
        Source::Order { .. } | Source::Goal => None,
    }
}

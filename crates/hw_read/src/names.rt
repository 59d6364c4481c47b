//! The names of an object's members.

ghost use Rattle.std.specs.Prelude.{◌≡◌};
ghost use Rattle.hw_read.specs.declared.table.Names.TheVariants.{Port, Ship, Waypoint};
ghost use Rattle.hw_read.specs.declared.table.Version.TheVariants.{First, Third};
ghost use Rattle.hw_read.specs.Names.{names_of};

use crate::table::{Names, Version};
use hw_lexicon::Lexicon;

/// The names of a ship's members.
fn ship_lexicon(version: Version) -> Lexicon<'static>
    ensures { result ≡ names_of version Ship }
{
    match version {
        Version::First => Lexicon::new(
            b"name direction class earliest latest tpc light deep route channel tugs job",
        ),
        Version::Second => Lexicon::new(
            b"name direction class earliest latest tpc light deep route channel tugs job may_stay",
        ),
        Version::Third => Lexicon::new(
            b"name direction class earliest latest tpc light deep route channel tugs job may_stay closed",
        ),
    }
}

/// The names of a waypoint's members.
fn waypoint_lexicon(version: Version) -> Lexicon<'static>
    ensures { result ≡ names_of version Waypoint }
{
    match version {
        Version::First => Lexicon::new(b"name depth"),
        Version::Second => Lexicon::new(b"name depth"),
        Version::Third => Lexicon::new(b"name depth closed"),
    }
}

/// The names of a port's members before the third version.
fn port_before() -> Lexicon<'static>
    ensures { result ≡ names_of First Port }
{
    Lexicon::new(
        b"version slots slot_minutes waypoints sections separation turnaround fleet ships berths",
    )
}

/// The names of a port's members in the third version.
fn port_third() -> Lexicon<'static>
    ensures { result ≡ names_of Third Port }
{
    Lexicon::new(
        b"version start slots slot_minutes heights closed waypoints sections separation turnaround fleet ships berths after",
    )
}

/// The names of a port's members.
fn port_lexicon(version: Version) -> Lexicon<'static>
    ensures { result ≡ names_of version Port }
{
    match version {
        Version::First => port_before(),
        Version::Second => port_before(),
        Version::Third => port_third(),
    }
}

/// The names of an object's members, by the version.
pub fn lexicon_of(names: Names, version: Version) -> Lexicon<'static>
    ensures { result ≡ names_of version names }
{
    match names {
        Names::Port => port_lexicon(version),
        Names::Waypoint => waypoint_lexicon(version),
        Names::Turnaround => Lexicon::new(b"outgoing incoming"),
        Names::Ship => ship_lexicon(version),
        Names::Pass => Lexicon::new(b"waypoint offset clearance"),
        Names::Stretch => Lexicon::new(b"section enter leave"),
        Names::Berth => Lexicon::new(b"outgoing incoming clear"),
        Names::After => Lexicon::new(b"first second gap"),
        Names::Closing => Lexicon::new(b"from to"),
    }
}

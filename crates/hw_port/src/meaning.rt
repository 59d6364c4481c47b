//! The meaning rules of a port, in the order of the table.

ghost use Rattle.std.specs.Prelude.{◌≡◌, ◌≤◌, length, pos, None, IfErr};
ghost use Rattle.hw_port.specs.declared.places.Place.TheVariants as places;
ghost use Rattle.hw_port.specs.Faults.{fault_of, each, at as at_path};
ghost use Rattle.hw_port.specs.Closings.{closed_fault};
ghost use Rattle.hw_port.specs.Rules.{among};
ghost use Rattle.hw_port.specs.Ships.{ship_fault};
ghost use Rattle.hw_port.specs.Meaning.{start_fault, calendar_fault, waypoint_fault, waypoints_fault, section_fault, sections_fault, gap_fault, row_fault, separation_fault, tug_fault, ships_fault, has_direction, ship_at, side_fault, berth_fault, berths_fault, port_fault, heights_fault, after_fault, afters_fault, IsMeaning};

use crate::closings::each_closing;
use crate::fault::{Path, PortFault, PortWord};
use crate::parts::{
    AfterPair, BerthPair, Closing, PortParts, Row, Section, Ship, Text, Turnaround, Waypoint,
};
use crate::places::Place;
use crate::rules::{at, at_item, at_part, count, is_heights, new_name, place, range, unless};
use crate::ships::test_ship;
use crate::starts::is_start;

/// The fault `Name`, where there is a start that is no date and time.
#[tactic(auto, unfolding(crate::specs::Meaning::start_fault))]
fn start(start: &Option<Text>) -> Result<(), PortFault>
    ensures { fault_of result ≡ start_fault start.now }
{
    match start {
        None => Ok(()),
        Some(text) => unless(at(Place::Start), PortWord::Name, is_start(&text.items)),
    }
}

#[tactic(auto, unfolding(crate::specs::Meaning::calendar_fault))]
fn calendar(p: &PortParts) -> Result<(), PortFault>
    ensures { fault_of result ≡ calendar_fault p.now.version p.now.start p.now.slots p.now.slot_minutes }
{
    range(at(Place::Version), 1, 3, p.version)?;
    start(&p.start)?;
    range(at(Place::Slots), 1, 512, p.slots)?;
    range(at(Place::SlotMinutes), 1, 1440, p.slot_minutes)
}

#[tactic(auto, unfolding(crate::specs::Meaning::heights_fault))]
fn heights(text: &[u8]) -> Result<(), PortFault>
    ensures { fault_of result ≡ heights_fault text.now }
{
    unless(at(Place::Heights), PortWord::Name, is_heights(text))
}

/// The slots in which no ship of the port sails, which has `slots` of them.
#[tactic(auto, unfolding(crate::specs::Closings::closed_fault))]
fn closed(slots: i64, closings: &[Closing]) -> Result<(), PortFault>
    ensures { fault_of result ≡ closed_fault (at_path places.Closed) places.ClosingFrom places.ClosingTo None 64 slots closings.now }
{
    count(at(Place::Closed), 0, 64, closings.len())?;
    each_closing(Place::ClosingFrom, Place::ClosingTo, None, slots, closings)
}

/// Whether an earlier waypoint has the name.
fn waypoint_has(name: &[u8], earlier: &[Waypoint]) -> bool
    ensures { result ≡ among (λ v. v.name) name.now earlier.now }
{
    earlier.iter().any(|w| w.name.items.as_slice() == name)
}

#[tactic(auto, unfolding(crate::specs::Meaning::waypoint_fault, crate::specs::Closings::closed_fault))]
fn test_waypoint(all: &[Waypoint], i: u32, w: &Waypoint) -> Result<(), PortFault>
    requires { i ≤ length all.now }
    ensures { fault_of result ≡ waypoint_fault all.now i w.now }
{
    let used = waypoint_has(&w.name.items, &all[..i as usize]);
    new_name(at_item(Place::WaypointName, i), used, &w.name.items)?;
    range(at_item(Place::WaypointDepth, i), 0, 10000, w.depth)?;
    count(
        at_item(Place::WaypointClosed, i),
        0,
        32,
        w.closed.items.len(),
    )?;
    each_closing(
        Place::WaypointClosingFrom,
        Place::WaypointClosingTo,
        Some(i),
        1535,
        &w.closed.items,
    )
}

fn each_waypoint(all: &[Waypoint]) -> Result<(), PortFault>
    requires { length all.now ≤ 16 }
    ensures { fault_of result ≡ each (waypoint_fault all.now) 0 all.now }
{
    for (i, w) in all.iter().enumerate() {
        test_waypoint(all, i as u32, w)?;
    }
    Ok(())
}

#[tactic(auto, unfolding(crate::specs::Meaning::waypoints_fault))]
fn waypoints(all: &[Waypoint]) -> Result<(), PortFault>
    ensures { fault_of result ≡ waypoints_fault all.now }
{
    count(at(Place::Waypoints), 1, 16, all.len())?;
    each_waypoint(all)
}

/// Whether an earlier section has the name.
fn section_has(name: &[u8], earlier: &[Section]) -> bool
    ensures { result ≡ among (λ v. v.name) name.now earlier.now }
{
    earlier.iter().any(|s| s.name.items.as_slice() == name)
}

#[tactic(auto, unfolding(crate::specs::Meaning::section_fault))]
fn test_section(all: &[Section], i: u32, s: &Section) -> Result<(), PortFault>
    requires { i ≤ length all.now }
    ensures { fault_of result ≡ section_fault all.now i s.now }
{
    let used = section_has(&s.name.items, &all[..i as usize]);
    new_name(at_item(Place::Section, i), used, &s.name.items)
}

fn each_section(all: &[Section]) -> Result<(), PortFault>
    requires { length all.now ≤ 8 }
    ensures { fault_of result ≡ each (section_fault all.now) 0 all.now }
{
    for (i, s) in all.iter().enumerate() {
        test_section(all, i as u32, s)?;
    }
    Ok(())
}

#[tactic(auto, unfolding(crate::specs::Meaning::sections_fault))]
fn sections(all: &[Section]) -> Result<(), PortFault>
    ensures { fault_of result ≡ sections_fault all.now }
{
    count(at(Place::Sections), 0, 8, all.len())?;
    each_section(all)
}

#[tactic(auto, unfolding(crate::specs::Meaning::gap_fault))]
fn gap(i: u32, j: u32, gap: i64) -> Result<(), PortFault>
    ensures { fault_of result ≡ gap_fault i j gap }
{
    range(at_part(Place::SeparationGap, i, j), 1, 512, gap)
}

fn each_gap(i: u32, row: &[i64]) -> Result<(), PortFault>
    requires { length row.now ≤ 8 }
    ensures { fault_of result ≡ each (gap_fault i) 0 row.now }
{
    for (j, number) in row.iter().enumerate() {
        gap(i, j as u32, *number)?;
    }
    Ok(())
}

/// The gaps after a ship, one for each class.
#[tactic(auto, unfolding(crate::specs::Meaning::row_fault))]
fn test_row(classes: usize, i: u32, row: &Row) -> Result<(), PortFault>
    requires { classes ≤ 8 }
    ensures { fault_of result ≡ row_fault classes i row.now }
{
    count(
        at_item(Place::SeparationRow, i),
        classes,
        classes,
        row.items.len(),
    )?;
    each_gap(i, &row.items)
}

fn each_row(rows: &[Row]) -> Result<(), PortFault>
    requires { length rows.now ≤ 8 }
    ensures { fault_of result ≡ each (row_fault (length rows.now)) 0 rows.now }
{
    for (i, row) in rows.iter().enumerate() {
        test_row(rows.len(), i as u32, row)?;
    }
    Ok(())
}

#[tactic(auto, unfolding(crate::specs::Meaning::separation_fault))]
fn separation(rows: &[Row]) -> Result<(), PortFault>
    ensures { fault_of result ≡ separation_fault rows.now }
{
    count(at(Place::Separation), 1, 8, rows.len())?;
    each_row(rows)
}

#[tactic(auto, unfolding(crate::specs::Meaning::tug_fault))]
fn tug_times(turnaround: &Turnaround, fleet: i64) -> Result<(), PortFault>
    ensures { fault_of result ≡ tug_fault turnaround.now fleet }
{
    range(at(Place::TurnaroundOutgoing), 0, 512, turnaround.outgoing)?;
    range(at(Place::TurnaroundIncoming), 0, 512, turnaround.incoming)?;
    range(at(Place::Fleet), 0, 1000, fleet)
}

fn each_ship(p: &PortParts) -> Result<(), PortFault>
    requires { length p.now.ships ≤ 40 }
    ensures { fault_of result ≡ each (ship_fault p.now) 0 p.now.ships }
{
    for (i, s) in p.ships.iter().enumerate() {
        test_ship(p, i as u32, s)?;
    }
    Ok(())
}

#[tactic(auto, unfolding(crate::specs::Meaning::ships_fault))]
fn ships(p: &PortParts) -> Result<(), PortFault>
    ensures { fault_of result ≡ ships_fault p.now }
{
    count(at(Place::Ships), 1, 40, p.ships.len())?;
    each_ship(p)
}

/// Whether the ship of a place has this direction.
fn is_side(direction: &[u8], ships: &[Ship], place: i64) -> bool
    ensures { result ≡ has_direction direction.now (ship_at ships.now place) }
{
    let Ok(place) = usize::try_from(place) else {
        return false;
    };
    match ships.get(place) {
        Some(ship) => ship.direction.items.as_slice() == direction,
        None => false,
    }
}

#[tactic(auto, unfolding(crate::specs::Meaning::side_fault))]
fn side(path: Path, direction: &[u8], ships: &[Ship], ship: i64) -> Result<(), PortFault>
    ensures { fault_of result ≡ side_fault path direction.now ships.now ship }
{
    place(path, ships.len() as i64, ship)?;
    unless(path, PortWord::Side, is_side(direction, ships, ship))
}

#[tactic(auto, unfolding(crate::specs::Meaning::berth_fault))]
fn berth(ships: &[Ship], i: u32, pair: &BerthPair) -> Result<(), PortFault>
    ensures { fault_of result ≡ berth_fault ships.now i pair.now }
{
    side(
        at_item(Place::BerthOutgoing, i),
        b"outgoing",
        ships,
        pair.outgoing,
    )?;
    side(
        at_item(Place::BerthIncoming, i),
        b"incoming",
        ships,
        pair.incoming,
    )?;
    range(at_item(Place::BerthClear, i), 1, 512, pair.clear)
}

fn each_berth(ships: &[Ship], pairs: &[BerthPair]) -> Result<(), PortFault>
    requires { length pairs.now ≤ 200 }
    ensures { fault_of result ≡ each (berth_fault ships.now) 0 pairs.now }
{
    for (i, pair) in pairs.iter().enumerate() {
        berth(ships, i as u32, pair)?;
    }
    Ok(())
}

#[tactic(auto, unfolding(crate::specs::Meaning::berths_fault))]
fn berths(ships: &[Ship], pairs: &[BerthPair]) -> Result<(), PortFault>
    ensures { fault_of result ≡ berths_fault ships.now pairs.now }
{
    count(at(Place::Berths), 0, 200, pairs.len())?;
    each_berth(ships, pairs)
}

#[tactic(auto, unfolding(crate::specs::Meaning::after_fault))]
fn after(ships: i64, i: u32, pair: &AfterPair) -> Result<(), PortFault>
    ensures { fault_of result ≡ after_fault ships i pair.now }
{
    place(at_item(Place::AfterFirst, i), ships, pair.first)?;
    place(at_item(Place::AfterSecond, i), ships, pair.second)?;
    unless(
        at_item(Place::AfterSecond, i),
        PortWord::Order,
        pair.first != pair.second,
    )?;
    range(at_item(Place::AfterGap, i), 0, 512, pair.gap)
}

fn each_after(ships: i64, pairs: &[AfterPair]) -> Result<(), PortFault>
    requires { length pairs.now ≤ 200 }
    ensures { fault_of result ≡ each (after_fault ships) 0 pairs.now }
{
    for (i, pair) in pairs.iter().enumerate() {
        after(ships, i as u32, pair)?;
    }
    Ok(())
}

#[tactic(auto, unfolding(crate::specs::Meaning::afters_fault))]
fn afters(ships: i64, pairs: &[AfterPair]) -> Result<(), PortFault>
    ensures { fault_of result ≡ afters_fault ships pairs.now }
{
    count(at(Place::After), 0, 200, pairs.len())?;
    each_after(ships, pairs)
}

/// All rules, in the order of the table.
#[tactic(auto, unfolding(crate::specs::Meaning::port_fault))]
fn all_rules(p: &PortParts) -> Result<(), PortFault>
    ensures { fault_of result ≡ port_fault p.now }
{
    calendar(p)?;
    heights(&p.heights.items)?;
    closed(p.slots, &p.closed.items)?;
    waypoints(&p.waypoints)?;
    sections(&p.sections)?;
    separation(&p.separation)?;
    tug_times(&p.turnaround, p.fleet)?;
    ships(p)?;
    berths(&p.ships, &p.berths)?;
    afters(p.ships.len() as i64, &p.after)
}

/// The first fault of meaning.
pub fn test_port(p: &PortParts) -> Result<(), PortFault>
    ensures fault { fault_of result ≡ port_fault p.now }
    ensures meaning { IfErr result (λ f. IsMeaning f.word) }
{
    all_rules(p)
}

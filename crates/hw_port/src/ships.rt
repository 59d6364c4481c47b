//! The meaning rules of a ship, in the order of the table.

ghost use Rattle.std.specs.Prelude.{◌≡◌, ◌≤◌, length, pos, negsuc};
ghost use Rattle.hw_port.specs.Faults.{fault_of, each};
ghost use Rattle.hw_port.specs.Rules.{among};
ghost use Rattle.hw_port.specs.Ships.{sort_fault, window_fault, load_fault, pass_fault, route_fault, stretch_fault, stretches_fault, channel_fault, tugs_fault, ship_fault};

use crate::closings::each_closing;
use crate::fault::{PortFault, PortWord};
use crate::parts::{Pass, PortParts, Ship, Stretch};
use crate::places::Place;
use crate::rules::{
    above, at_item, at_least, at_part, count, is_direction, new_name, place, range, unless,
};

/// Whether an earlier ship has the name.
fn has_name(name: &[u8], earlier: &[Ship]) -> bool
    ensures { result ≡ among (λ v. v.name) name.now earlier.now }
{
    earlier.iter().any(|s| s.name.items.as_slice() == name)
}

/// The name, the direction and the class of a ship, where there are this many classes.
#[tactic(auto, unfolding(crate::specs::Ships::sort_fault))]
fn sort(all: &[Ship], classes: i64, i: u32, s: &Ship) -> Result<(), PortFault>
    requires { i ≤ length all.now }
    ensures { fault_of result ≡ sort_fault all.now classes i s.now }
{
    let used = has_name(&s.name.items, &all[..i as usize]);
    new_name(at_item(Place::ShipName, i), used, &s.name.items)?;
    unless(
        at_item(Place::ShipDirection, i),
        PortWord::Name,
        is_direction(&s.direction.items),
    )?;
    place(at_item(Place::ShipClass, i), classes, s.class)
}

/// The first and the last slot of a ship.
#[tactic(auto, unfolding(crate::specs::Ships::window_fault))]
fn window(i: u32, slots: i64, earliest: i64, latest: i64) -> Result<(), PortFault>
    ensures { fault_of result ≡ window_fault i slots earliest latest }
{
    place(at_item(Place::ShipEarliest, i), slots, earliest)?;
    place(at_item(Place::ShipLatest, i), slots, latest)?;
    at_least(at_item(Place::ShipLatest, i), earliest, latest)
}

/// What a ship carries per centimetre, and its drafts.
#[tactic(auto, unfolding(crate::specs::Ships::load_fault))]
fn load(i: u32, tpc: i64, light: i64, deep: i64) -> Result<(), PortFault>
    ensures { fault_of result ≡ load_fault i tpc light deep }
{
    range(at_item(Place::ShipTpc, i), 0, 3000, tpc)?;
    range(at_item(Place::ShipLight, i), 0, 10000, light)?;
    range(at_item(Place::ShipDeep, i), 0, 10000, deep)?;
    at_least(at_item(Place::ShipDeep, i), light, deep)
}

#[tactic(auto, unfolding(crate::specs::Ships::pass_fault))]
fn pass(i: u32, waypoints: i64, j: u32, p: &Pass) -> Result<(), PortFault>
    ensures { fault_of result ≡ pass_fault i waypoints j p.now }
{
    place(at_part(Place::PassWaypoint, i, j), waypoints, p.waypoint)?;
    range(at_part(Place::PassOffset, i, j), 0, 1023, p.offset)?;
    range(at_part(Place::PassClearance, i, j), 0, 1000, p.clearance)
}

fn each_pass(i: u32, waypoints: i64, route: &[Pass]) -> Result<(), PortFault>
    requires { length route.now ≤ 16 }
    ensures { fault_of result ≡ each (pass_fault i waypoints) 0 route.now }
{
    for (j, p) in route.iter().enumerate() {
        pass(i, waypoints, j as u32, p)?;
    }
    Ok(())
}

#[tactic(auto, unfolding(crate::specs::Ships::route_fault))]
fn route(i: u32, waypoints: i64, route: &[Pass]) -> Result<(), PortFault>
    ensures { fault_of result ≡ route_fault i waypoints route.now }
{
    count(at_item(Place::ShipRoute, i), 1, 16, route.len())?;
    each_pass(i, waypoints, route)
}

/// A stretch after one in the section `before`.
#[tactic(auto, unfolding(crate::specs::Ships::stretch_fault))]
fn test_stretch(i: u32, sections: i64, j: u32, before: i64, s: &Stretch) -> Result<(), PortFault>
    ensures { fault_of result ≡ stretch_fault i sections j before s.now }
{
    place(at_part(Place::StretchSection, i, j), sections, s.section)?;
    above(at_part(Place::StretchSection, i, j), before, s.section)?;
    range(at_part(Place::StretchEnter, i, j), 0, 511, s.enter)?;
    range(at_part(Place::StretchLeave, i, j), 1, 512, s.leave)?;
    above(at_part(Place::StretchLeave, i, j), s.enter, s.leave)
}

fn each_stretch(i: u32, sections: i64, channel: &[Stretch]) -> Result<(), PortFault>
    requires { length channel.now ≤ 8 }
    ensures { fault_of result ≡ stretches_fault i sections 0 (negsuc 0) channel.now }
{
    let mut before = -1;
    for (j, s) in channel.iter().enumerate() {
        test_stretch(i, sections, j as u32, before, s)?;
        before = s.section;
    }
    Ok(())
}

#[tactic(auto, unfolding(crate::specs::Ships::channel_fault))]
fn channel(i: u32, sections: i64, channel: &[Stretch]) -> Result<(), PortFault>
    ensures { fault_of result ≡ channel_fault i sections channel.now }
{
    count(at_item(Place::ShipChannel, i), 0, 8, channel.len())?;
    each_stretch(i, sections, channel)
}

#[tactic(auto, unfolding(crate::specs::Ships::tugs_fault))]
fn tugs(i: u32, tugs: i64, job: i64) -> Result<(), PortFault>
    ensures { fault_of result ≡ tugs_fault i tugs job }
{
    range(at_item(Place::ShipTugs, i), 0, 64, tugs)?;
    range(at_item(Place::ShipJob, i), 1, 512, job)
}

/// All rules of the ship at a place.
#[tactic(auto, unfolding(crate::specs::Ships::ship_fault, crate::specs::Closings::closed_fault))]
pub fn test_ship(p: &PortParts, i: u32, s: &Ship) -> Result<(), PortFault>
    requires { i ≤ length p.now.ships }
    ensures { fault_of result ≡ ship_fault p.now i s.now }
{
    sort(&p.ships, p.separation.len() as i64, i, s)?;
    window(i, p.slots, s.earliest, s.latest)?;
    load(i, s.tpc, s.light, s.deep)?;
    route(i, p.waypoints.len() as i64, &s.route)?;
    channel(i, p.sections.len() as i64, &s.channel)?;
    tugs(i, s.tugs, s.job)?;
    count(at_item(Place::ShipClosed, i), 0, 32, s.closed.items.len())?;
    each_closing(
        Place::ShipClosingFrom,
        Place::ShipClosingTo,
        Some(i),
        p.slots,
        &s.closed.items,
    )
}

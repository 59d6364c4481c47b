//! How many slots a picture shows.

ghost use Rattle.std.specs.Prelude.{◌≡◌, ◌≤◌, ◌<◌, ◌+◌, length, All, option_map, pos};
ghost use Rattle.hw_port.specs.Kept.{PortKept, ShipKept, StretchKept};
ghost use Rattle.hw_port_model.specs.Numbers.{hold_of, horizon_of};
ghost use Rattle.hw_chart.specs.Courses.{SailsBefore, slot_in};
ghost use Rattle.hw_chart_port.specs.Charts.{course_in};
ghost use Rattle.hw_chart_port.specs.Spans.{course_end, ends_from, slots_with_tugs, last_leave, reach as reach_of, port_picture_span};

use hw_chart::{Course, course_at};
use hw_chart_flat::Plan;
use hw_draft::{last_pass, natural, turnaround};
use hw_model::{MOST_SHIPS, MOST_SLOTS, ShipId, Slot};
use hw_port::{Port, PortParts, Ship, Stretch};

/// How many slots after sailing a ship leaves the last section of a channel.
fn last_leave(sections: usize, channel: &[Stretch]) -> u32
    requires { All (StretchKept (pos sections)) channel.now }
    ensures value { result ≡ last_leave channel.now }
    ensures few { result ≤ 512 }
{
    match channel {
        [] => 0,
        [stretch, more @ ..] => natural(stretch.leave).max(last_leave(sections, more)),
    }
}

/// For how many slots a ship holds its tugs.
pub fn hold(parts: &PortParts, ship: &Ship) -> u32
    requires kept { PortKept parts.now }
    requires ship { ShipKept parts.now ship.now }
    ensures value { result ≡ hold_of parts.now ship.now }
    ensures few { result ≤ 1_024 }
{
    natural(ship.job) + turnaround(parts, ship)
}

/// The same, 0 where the ship has no tugs.
fn held_for(parts: &PortParts, ship: &Ship) -> u32
    requires kept { PortKept parts.now }
    requires ship { ShipKept parts.now ship.now }
    ensures value { result ≡ slots_with_tugs parts.now ship.now }
    ensures few { result ≤ 1_024 }
{
    if natural(ship.tugs) > 0 {
        hold(parts, ship)
    } else {
        0
    }
}

/// How many slots a sailing takes.
fn reach(parts: &PortParts, ship: &Ship) -> u32
    requires kept { PortKept parts.now }
    requires ship { ShipKept parts.now ship.now }
    ensures value { result ≡ reach_of parts.now ship.now }
    ensures few { result ≤ 1_024 }
{
    let passed = last_pass(parts.waypoints.len(), &ship.route).offset + 1;
    let left = last_leave(parts.sections.len(), &ship.channel);
    passed.max(left.max(held_for(parts, ship)))
}

/// The slot up to which a course reaches, 0 where the ship doesn't sail.
fn end(horizon: u32, course: Course, reach: u32) -> u32
    requires horizon { horizon ≤ MOST_SLOTS }
    requires before { SailsBefore horizon course }
    requires few { reach ≤ 1_024 }
    ensures value { result ≡ course_end course reach }
    ensures small { result ≤ 1_535 }
{
    match course {
        Course::Unplanned | Course::Stays => 0,
        Course::Sails(slot) => slot + reach,
    }
}

/// The slot that a timetable gives a ship, if there is one.
pub fn slot_of(plan: Option<&Plan>, ship: ShipId) -> Option<Slot>
    ensures { result ≡ slot_in (option_map (λ plan. plan.now.table) plan.entry) ship }
{
    let plan = plan?;
    plan.table().as_slice().get(ship as usize).copied()
}

/// The slot up to which the ships from a number on reach.
fn ends(parts: &PortParts, plan: Option<&Plan>, first: ShipId, ships: &[Ship]) -> u32
    requires kept { PortKept parts.now }
    requires ships { All (ShipKept parts.now) ships.now }
    requires few { first + length ships.now ≤ MOST_SHIPS }
    ensures value { result ≡ ends_from parts.now (option_map (λ plan. plan.now.table) plan.entry) first ships.now }
    ensures small { result ≤ 1_535 }
{
    match ships {
        [] => 0,
        [ship, more @ ..] => {
            let horizon = natural(parts.slots);
            let course = course_at(slot_of(plan, first), horizon);
            let own = end(horizon, course, reach(parts, ship));
            own.max(ends(parts, plan, first + 1, more))
        }
    }
}

/// How many slots the picture of a port shows.
pub fn slots_shown(port: &Port, plan: Option<&Plan>) -> u32
    ensures value { result ≡ port_picture_span port.now (option_map (λ plan. plan.now.table) plan.entry) }
    ensures some { 0 < result }
    ensures small { result ≤ 1_535 }
{
    let parts = port.parts();
    natural(parts.slots).max(ends(parts, plan, 0, &parts.ships))
}

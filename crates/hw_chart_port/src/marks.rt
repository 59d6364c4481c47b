//! Which marks are in a picture: those that its legend names.

ghost use Rattle.std.specs.Prelude.{◌≡◌, ◌≤◌, ◌<◌, ◌+◌, nat_eq, length, All, pos};
ghost use Rattle.std.specs.List.{list_any, range_with_len};
ghost use Rattle.hw_port.specs.Kept.{AfterKept, BerthKept, ShipKept};
ghost use Rattle.hw_port_model.specs.Drafts.{sailing as sailing_draft};
ghost use Rattle.hw_port_model.specs.Numbers.{horizon_of, whole};
ghost use Rattle.hw_chart_port.specs.Charts.{course as course_of_ship};
ghost use Rattle.hw_chart_port.specs.Marks.{course_has, in_some_slot, has_mark, sailing_has, sails_at, some_sailing_has, some_window_has, waits_after, waits_for, window_has};
ghost use Rattle.hw_chart_port.specs.Moves.{could_move};

use crate::bars::{incoming_of, tugs_of};
use crate::chart::Chart;
use crate::fleet::is_fleet_held;
use crate::numbers::natural_full;
use crate::reasons::{Reason, has_no_slot, is_reason_for};
use crate::sailing::sailing_of;
use crate::stays::{first_of, second_of};
use hw_chart::Course;
use hw_draft::{natural, turnaround};
use hw_model::{MOST_SHIPS, ShipId, Slot};
use hw_port::{AfterPair, BerthPair, Ship};
use hw_port_windows::full_draft;

/// A kind of mark that the legend names.
#[derive(Clone, Copy)]
pub enum Mark {
    Tide,
    OfWindow(WindowMark),
    OfSailing(SailingMark),
    WholeFleet,
}

/// A mark that a ship has with a timetable or without one: a slot in which it may sail, one in which it may with its full draft,
/// one to which it alone could move, its direction, and a slot of its window that is closed.
#[derive(Clone, Copy)]
pub enum WindowMark {
    MaySail,
    FullDraft,
    CouldMove,
    Outgoing,
    Incoming,
    Closed,
}

/// A mark of a ship that sails: its passes, those of one that goes out, its tugs and their turnaround, that it must wait for
/// another ship and that it waits on, and a draft that is the allowed one or less than the full one.
#[derive(Clone, Copy)]
pub enum SailingMark {
    Passes,
    PassesOut,
    HoldsTugs,
    TugsTurn,
    MustWait,
    WaitsOn,
    AtLimit,
    BelowFull,
}

/// Whether a ship may sail in a slot with this draft.
fn sails_at(chart: &Chart, number: ShipId, full: i64, slot: Slot) -> bool
    requires ship_in { number < length chart.now.port.ships }
    requires slot_in { slot < horizon_of chart.now.port }
    ensures { result ≡ sails_at full (sailing_draft chart.now.port chart.now.tide number slot) }
{
    match chart.sailing(number, slot) {
        Some(draft) => draft == full,
        None => false,
    }
}

/// Whether there is a slot in which a ship may sail with this draft.
fn sails_somewhere_at(chart: &Chart, number: ShipId, full: i64) -> bool
    requires { number < length chart.now.port.ships }
    ensures { result ≡ in_some_slot chart.now (λ slot. sails_at full (sailing_draft chart.now.port chart.now.tide number slot)) }
{
    (0..chart.horizon()).any(|slot| sails_at(chart, number, full, slot))
}

/// Whether there is a slot to which a ship alone could move.
fn could_move(chart: &Chart, number: ShipId) -> bool
    requires { number < length chart.now.port.ships }
    ensures { result ≡ in_some_slot chart.now (could_move chart.now.port chart.now.tide chart.now.table number) }
{
    (0..chart.horizon()).any(|slot| chart.is_open(number, slot))
}

/// Whether a ship has this mark.
fn window_has(chart: &Chart, mark: WindowMark, number: ShipId, ship: &Ship) -> bool
    requires ship_in { number < length chart.now.port.ships }
    requires ship { ShipKept chart.now.port ship.now }
    ensures { result ≡ window_has chart.now mark number ship.now }
{
    match mark {
        WindowMark::MaySail => !has_no_slot(chart, number),
        WindowMark::FullDraft => {
            ship.is_outgoing() && sails_somewhere_at(chart, number, full_draft(ship))
        }
        WindowMark::CouldMove => could_move(chart, number),
        WindowMark::Outgoing => ship.is_outgoing(),
        WindowMark::Incoming => !ship.is_outgoing(),
        WindowMark::Closed => is_reason_for(chart, number, ship, Reason::Shut),
    }
}

/// Whether one of the ships from a number on has this mark.
fn some_window_has(chart: &Chart, mark: WindowMark, first: ShipId, ships: &[Ship]) -> bool
    requires few { first + length ships.now ≤ MOST_SHIPS }
    requires inside { first + length ships.now ≤ length chart.now.port.ships }
    requires ships { All (ShipKept chart.now.port) ships.now }
    ensures { result ≡ some_window_has chart.now mark first ships.now }
{
    match ships {
        [] => false,
        [ship, more @ ..] => {
            window_has(chart, mark, first, ship) || some_window_has(chart, mark, first + 1, more)
        }
    }
}

/// Whether a ship takes the berth of one of these pairs.
fn awaits_berth(chart: &Chart, number: ShipId, pairs: &[BerthPair]) -> bool
    requires { All (BerthKept chart.now.port.ships) pairs.now }
    ensures { result ≡ list_any (λ b. nat_eq (whole b.incoming) number) pairs.now }
{
    match pairs {
        [] => false,
        [pair, more @ ..] => {
            incoming_of(chart, pair) == number || awaits_berth(chart, number, more)
        }
    }
}

/// Whether this ship is the second one of one of these pairs, and the gap isn't 0.
fn awaits_ship(chart: &Chart, number: ShipId, pairs: &[AfterPair]) -> bool
    requires { All (AfterKept (pos (length chart.now.port.ships))) pairs.now }
    ensures { result ≡ list_any (waits_for number) pairs.now }
{
    match pairs {
        [] => false,
        [pair, more @ ..] => {
            second_of(chart, pair) == number && natural(pair.gap) > 0
                || awaits_ship(chart, number, more)
        }
    }
}

/// Whether this ship is the second one of one of these pairs, and sails in another slot than the first.
fn waits_on(chart: &Chart, number: ShipId, pairs: &[AfterPair]) -> bool
    requires { All (AfterKept (pos (length chart.now.port.ships))) pairs.now }
    ensures { result ≡ list_any (waits_after chart.now number) pairs.now }
{
    match pairs {
        [] => false,
        [pair, more @ ..] => {
            second_of(chart, pair) == number
                && chart.slot_at(first_of(chart, pair)) != chart.slot_at(second_of(chart, pair))
                || waits_on(chart, number, more)
        }
    }
}

/// Whether a ship that sails in a slot has this mark.
fn sailing_has(chart: &Chart, mark: SailingMark, number: ShipId, ship: &Ship, slot: Slot) -> bool
    requires ship_in { number < length chart.now.port.ships }
    requires ship { ShipKept chart.now.port ship.now }
    requires slot_in { slot < horizon_of chart.now.port }
    ensures { result ≡ sailing_has chart.now mark number ship.now slot }
{
    let parts = chart.parts();
    match mark {
        SailingMark::Passes => true,
        SailingMark::PassesOut => ship.is_outgoing(),
        SailingMark::HoldsTugs => tugs_of(chart, ship) > 0,
        SailingMark::TugsTurn => tugs_of(chart, ship) > 0 && turnaround(parts, ship) > 0,
        SailingMark::MustWait => {
            awaits_berth(chart, number, &parts.berths) || awaits_ship(chart, number, &parts.after)
        }
        SailingMark::WaitsOn => waits_on(chart, number, &parts.after),
        SailingMark::AtLimit => {
            let sailing = sailing_of(chart, number, slot);
            u64::from(sailing.draft) == sailing.allowed
        }
        SailingMark::BelowFull => {
            ship.is_outgoing() && sailing_of(chart, number, slot).draft != natural_full(ship)
        }
    }
}

/// Whether a ship sails and has this mark.
fn ship_has(chart: &Chart, mark: SailingMark, number: ShipId, ship: &Ship) -> bool
    requires ship_in { number < length chart.now.port.ships }
    requires ship { ShipKept chart.now.port ship.now }
    ensures { result ≡ course_has chart.now mark number ship.now (course_of_ship chart.now number) }
{
    match chart.course(number) {
        Course::Unplanned | Course::Stays => false,
        Course::Sails(slot) => sailing_has(chart, mark, number, ship, slot),
    }
}

/// Whether one of the ships from a number on sails and has this mark.
fn some_sailing_has(chart: &Chart, mark: SailingMark, first: ShipId, ships: &[Ship]) -> bool
    requires few { first + length ships.now ≤ MOST_SHIPS }
    requires inside { first + length ships.now ≤ length chart.now.port.ships }
    requires ships { All (ShipKept chart.now.port) ships.now }
    ensures { result ≡ some_sailing_has chart.now mark first ships.now }
{
    match ships {
        [] => false,
        [ship, more @ ..] => {
            ship_has(chart, mark, first, ship) || some_sailing_has(chart, mark, first + 1, more)
        }
    }
}

/// Whether the picture has this mark.
pub fn has_mark(chart: &Chart, mark: Mark) -> bool
    ensures { result ≡ has_mark chart.now mark }
{
    match mark {
        Mark::Tide => true,
        Mark::OfWindow(mark) => some_window_has(chart, mark, 0, chart.ships()),
        Mark::OfSailing(mark) => some_sailing_has(chart, mark, 0, chart.ships()),
        Mark::WholeFleet => is_fleet_held(chart),
    }
}

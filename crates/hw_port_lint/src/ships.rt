//! What is likely meant otherwise of a port's ships.

ghost use Rattle.std.specs.Prelude.{◌≡◌, ◌+◌, ◌++◌, ◌≤◌, All, OnOk, length, pos};
ghost use Rattle.hw_port.specs.Kept.{PortKept, ShipKept, Within};
ghost use Rattle.hw_draft.specs.LastPasses.{last_pass};
ghost use Rattle.hw_port_lint.specs.Lines.{short_line};
ghost use Rattle.hw_port_lint.specs.Ships.{draft_hint, is_long, job_hint, late_by, late_hint, load_hint, last_height_needed, ship_hints, ship_member, ship_hints_from, short_hint};

use crate::doubt::{Doubt, put_doubt};
use crate::pieces::{Piece, put_pieces};
use hw_draft::{LastPass, judging_slot, last_pass, natural};
use hw_model::MOST_SHIPS;
use hw_port::{PortParts, Ship};
use std::alloc::AllocError;

/// Appends the line of a member of a ship.
fn put_member(
    out: &mut Vec<u8>,
    number: u32,
    ship: &Ship,
    member: &[u8],
    value: u32,
    unit: &[u8],
) -> Result<(), AllocError>
    ensures { OnOk result (out.new.items ≡ out.old.items ++ ship_member number ship.now member.now value unit.now) }
{
    let doubt = Doubt {
        items: b"ships.",
        number,
        member,
        value,
        unit,
    };
    put_doubt(out, doubt, &ship.name.items)
}

/// Appends the line of a ship whose deepest draft looks like metres.
fn put_draft(
    out: &mut Vec<u8>,
    parts: &PortParts,
    number: u32,
    ship: &Ship,
) -> Result<(), AllocError>
    requires { ShipKept parts.now ship.now }
    ensures { OnOk result (out.new.items ≡ out.old.items ++ draft_hint number ship.now) }
{
    let deep = natural(ship.deep);
    if deep < 30 {
        put_member(out, number, ship, b".deep ", deep, b" metres ")?;
    }
    Ok(())
}

/// Appends the line of a ship whose `tpc` looks like tonnes.
fn put_load(
    out: &mut Vec<u8>,
    parts: &PortParts,
    number: u32,
    ship: &Ship,
) -> Result<(), AllocError>
    requires { ShipKept parts.now ship.now }
    ensures { OnOk result (out.new.items ≡ out.old.items ++ load_hint number ship.now) }
{
    let load = natural(ship.tpc);
    if 0 < load && load < 200 && 1_000 <= natural(ship.deep) {
        put_member(out, number, ship, b".tpc ", load, b" tonnes ")?;
    }
    Ok(())
}

/// Whether these slots take at least this many minutes.
fn is_long(parts: &PortParts, slots: u32, minutes: u64) -> bool
    requires { PortKept parts.now }
    ensures { result ≡ is_long parts.now slots minutes }
{
    minutes <= u64::from(slots) * u64::from(natural(parts.slot_minutes))
}

/// Appends the line of a ship whose `job` looks like minutes.
fn put_job(out: &mut Vec<u8>, parts: &PortParts, number: u32, ship: &Ship) -> Result<(), AllocError>
    requires port { PortKept parts.now }
    requires ship { ShipKept parts.now ship.now }
    ensures { OnOk result (out.new.items ≡ out.old.items ++ job_hint parts.now number ship.now) }
{
    let job = natural(ship.job);
    if is_long(parts, job, 480) {
        put_member(out, number, ship, b".job ", job, b" minutes ")?;
    }
    Ok(())
}

/// The last pass of a ship.
fn last_of(parts: &PortParts, ship: &Ship) -> LastPass
    requires port { PortKept parts.now }
    requires ship { ShipKept parts.now ship.now }
    ensures value { result ≡ last_pass ship.now.route }
    ensures few { result.offset ≤ 1_023 }
{
    last_pass(parts.waypoints.len(), &ship.route)
}

/// Appends the line of a ship whose last pass, counted in slots after its own, looks as if it were in minutes.
#[tactic(auto, unfolding(crate::specs::Ships::late_by))]
fn put_last(
    out: &mut Vec<u8>,
    parts: &PortParts,
    number: u32,
    ship: &Ship,
    last: u32,
) -> Result<(), AllocError>
    requires { PortKept parts.now }
    ensures { OnOk result (out.new.items ≡ out.old.items ++ late_by parts.now number ship.now last) }
{
    if is_long(parts, last, 720) {
        put_member(out, number, ship, b".route offset ", last, b" minutes ")?;
    }
    Ok(())
}

/// The same by its route.
fn put_late(
    out: &mut Vec<u8>,
    parts: &PortParts,
    number: u32,
    ship: &Ship,
) -> Result<(), AllocError>
    requires port { PortKept parts.now }
    requires ship { ShipKept parts.now ship.now }
    ensures { OnOk result (out.new.items ≡ out.old.items ++ late_hint parts.now number ship.now) }
{
    put_last(out, parts, number, ship, last_of(parts, ship).offset)
}

/// The last slot whose height a ship needs that sails in its latest slot.
fn needed(parts: &PortParts, ship: &Ship) -> u32
    requires port { PortKept parts.now }
    requires ship { ShipKept parts.now ship.now }
    ensures { result ≡ last_height_needed parts.now ship.now }
{
    judging_slot(parts, natural(ship.latest), last_of(parts, ship))
}

/// Appends the line of a ship for which the tide table is too short.
#[tactic(auto, unfolding(crate::specs::Lines::short_line))]
fn put_short(out: &mut Vec<u8>, first: u32, last: u32, name: &[u8]) -> Result<(), AllocError>
    ensures { OnOk result (out.new.items ≡ out.old.items ++ short_line first last name.now) }
{
    put_pieces(
        out,
        &[
            Piece::Word(b"hint tides lack "),
            Piece::Number(u64::from(first)),
            Piece::Word(b" to "),
            Piece::Number(u64::from(last)),
            Piece::Word(b" "),
            Piece::Word(name),
            Piece::Word(b"\n"),
        ],
    )
}

/// The same, where it is too short.
fn put_rows(out: &mut Vec<u8>, parts: &PortParts, rows: u32, ship: &Ship) -> Result<(), AllocError>
    requires port { PortKept parts.now }
    requires ship { ShipKept parts.now ship.now }
    ensures { OnOk result (out.new.items ≡ out.old.items ++ short_hint parts.now rows ship.now) }
{
    let last = needed(parts, ship);
    if rows <= last {
        put_short(out, rows, last, &ship.name.items)?;
    }
    Ok(())
}

/// Appends the lines of a ship.
fn put_ship(
    out: &mut Vec<u8>,
    parts: &PortParts,
    rows: u32,
    number: u32,
    ship: &Ship,
) -> Result<(), AllocError>
    requires port { PortKept parts.now }
    requires ship { ShipKept parts.now ship.now }
    ensures { OnOk result (out.new.items ≡ out.old.items ++ ship_hints parts.now rows number ship.now) }
{
    put_draft(out, parts, number, ship)?;
    put_load(out, parts, number, ship)?;
    put_job(out, parts, number, ship)?;
    put_late(out, parts, number, ship)?;
    put_rows(out, parts, rows, ship)
}

/// Appends the lines of ships, the first of which has this number.
pub fn put_ships(
    out: &mut Vec<u8>,
    parts: &PortParts,
    rows: u32,
    first: u32,
    ships: &[Ship],
) -> Result<(), AllocError>
    requires port { PortKept parts.now }
    requires few { first + length ships.now ≤ MOST_SHIPS }
    requires ships { All (ShipKept parts.now) ships.now }
    ensures { OnOk result (out.new.items ≡ out.old.items ++ ship_hints_from parts.now rows first ships.now) }
{
    if let [ship, more @ ..] = ships {
        put_ship(out, parts, rows, first, ship)?;
        put_ships(out, parts, rows, first + 1, more)?;
    }
    Ok(())
}

//! A ship that sails in a slot.

ghost use Rattle.std.specs.Prelude.{◌≡◌, ◌<◌, ◌≤◌, ◌+◌, ◌++◌, codes, decimal, pos, length, IfSome};
ghost use Rattle.hw_desk.specs.Writers.{Puts};
ghost use Rattle.hw_port.specs.Kept.{PortKept, ShipKept, Within};
ghost use Rattle.hw_port_model.specs.Drafts.{allowed, sailing, value};
ghost use Rattle.hw_draft.specs.Passages.{PassageKept};
ghost use Rattle.csv.specs.Writing.{default_writer, field_text, fields_text};
ghost use Rattle.hw_port_csv.specs.Passes.{clearance_of};
ghost use Rattle.hw_port_csv.specs.Sailings.{figure_fields, keel_of, limit_of, pass_fields, passed_text, sailing_fields, time_text, water_fields};

use crate::field::{Field, put_fields, put_next};
use crate::passes::offset_at;
use crate::time::{put_pass_time, put_time};
use hw_desk::Writer;
use hw_draft::{Passage, limit_name};
use hw_model::{MOST_SLOTS, ShipId, Slot};
use hw_port::{Port, PortParts, Ship, Waypoint};
use hw_tide::Tide;
use std::marker::Model;

/// A ship of a port with its number, a slot in which it sails, and the tide.
#[derive(Drop)]
pub struct Sailing<'p> {
    pub port: &'p Port,
    pub tide: &'p Tide,
    pub number: ShipId,
    pub ship: &'p Ship,
    pub slot: Slot,
}

impl<'p> Model for Sailing<'p> {
    ghost use Rattle.hw_port_csv.specs.Sailings.{IsSailing, SailingParts};

    ghost Value = { SailingParts };

    ghost view = { λ a. record { port = a.port.now; tide = a.tide.now; number = a.number; ship = a.ship.now; slot = a.slot } };

    ghost invariant = { λ a. IsSailing (record { port = a.port.now; tide = a.tide.now; number = a.number; ship = a.ship.now; slot = a.slot }) };
}

/// The clearance of a pass.
fn clearance_of(limit: Option<Passage>) -> Option<i64>
    ensures { result ≡ clearance_of limit }
{
    match limit {
        Some(passage) => Some(passage.clearance),
        None => None,
    }
}

impl Sailing<'_> {
    /// The parts of the port.
    fn parts(&self) -> &PortParts
        ensures parts { result.now ≡ self.now.port }
        ensures kept { PortKept result.now }
        ensures columns { self.now.tide.columns ≡ length result.now.waypoints }
    {
        self.port.parts()
    }

    /// The ship.
    fn ship(&self) -> &Ship
        ensures value { result.now ≡ self.now.ship }
        ensures kept { ShipKept self.now.port result.now }
    {
        self.ship
    }

    /// The slot.
    fn slot(&self) -> Slot
        ensures value { result ≡ self.now.slot }
        ensures few { result < MOST_SLOTS }
    {
        let _few = self.parts();
        self.slot
    }

    /// The draft at which the ship sails, or none where it may not.
    fn draft(&self) -> Option<i64>
        ensures value { result ≡ sailing self.now.port self.now.tide self.now.number self.now.slot }
        ensures kept { IfSome result (Within (pos 0) (pos 10_000)) }
    {
        let port = self.port;
        let _kept = port.parts();
        hw_draft::sailing(port, self.tide, self.number, self.slot)
    }

    /// The draft that the water allows it, or none where that isn't known.
    fn allowed(&self) -> Option<i64>
        ensures { result ≡ allowed self.now.port self.now.tide self.now.number self.now.slot }
    {
        hw_draft::draft(self.port, self.tide, self.number, self.slot)
    }

    /// What it carries, or none where it may not sail.
    fn cargo(&self) -> Option<u64>
        ensures { result ≡ value self.now.port self.now.tide self.now.number self.now.slot }
    {
        hw_draft::value(self.port, self.tide, self.number, self.slot)
    }

    /// The pass that limits the draft, or none where that isn't known.
    fn limit(&self) -> Option<Passage>
        ensures value { result ≡ limit_of self.now }
        ensures kept { IfSome result PassageKept }
    {
        hw_draft::limiting(self.port, self.tide, self.number, self.slot)
    }

    /// The water under the keel at that pass.
    fn keel(&self) -> Option<i64>
        ensures { result ≡ keel_of self.now }
    {
        let draft = self.draft()?;
        let limit = self.limit()?;
        Some(limit.under_keel(draft))
    }
}

/// Puts what the water allows a ship, and its cargo.
fn put_water<W: Writer>(out: &mut W, sailing: &Sailing)
    ensures { Puts (fields_text default_writer (water_fields sailing.now)) (W.state out.old) (W.state out.new) }
{
    let parts = sailing.parts();
    let limit = sailing.limit();
    put_fields(
        out,
        &[
            Field::Centimetres(sailing.draft()),
            Field::Centimetres(sailing.allowed()),
            Field::Text(limit_name(parts, limit)),
            Field::Centimetres(sailing.keel()),
            Field::Centimetres(clearance_of(limit)),
            Field::Tonnes(sailing.cargo()),
        ],
    );
}

/// Puts the slot of a sailing.
fn put_slot<W: Writer>(out: &mut W, sailing: &Sailing)
    ensures { Puts (codes "," ++ field_text default_writer (decimal sailing.now.slot)) (W.state out.old) (W.state out.new) }
{
    put_next(out, Field::Number(u64::from(sailing.slot())));
}

/// Puts when it begins.
fn put_begin<W: Writer>(out: &mut W, sailing: &Sailing)
    ensures { Puts (codes "," ++ field_text default_writer (time_text sailing.now.port sailing.now.slot)) (W.state out.old) (W.state out.new) }
{
    put_time(out, sailing.parts(), sailing.slot());
}

/// Puts the fields of a sailing but those of its passes.
fn put_figures<W: Writer>(out: &mut W, sailing: &Sailing)
    ensures { Puts (fields_text default_writer (figure_fields sailing.now)) (W.state out.old) (W.state out.new) }
{
    put_slot(out, sailing);
    put_begin(out, sailing);
    put_water(out, sailing);
}

/// Puts when a ship first passes a waypoint.
fn put_pass<W: Writer>(out: &mut W, sailing: &Sailing, place: u32)
    ensures { Puts (codes "," ++ field_text default_writer (passed_text sailing.now place)) (W.state out.old) (W.state out.new) }
{
    let parts = sailing.parts();
    let offset = offset_at(parts.waypoints.len(), &sailing.ship().route, place);
    put_pass_time(out, parts, sailing.slot(), offset);
}

/// Puts a field for each waypoint from a place on.
#[tactic(auto, unfolding(csv::specs::Writing::fields_text))]
fn put_passes<W: Writer>(out: &mut W, sailing: &Sailing, place: u32, waypoints: &[Waypoint])
    requires { place + length waypoints.now ≤ 16 }
    ensures { Puts (fields_text default_writer (pass_fields sailing.now place waypoints.now)) (W.state out.old) (W.state out.new) }
{
    if let [_, more @ ..] = waypoints {
        put_pass(out, sailing, place);
        put_passes(out, sailing, place + 1, more);
    }
}

/// Puts a field for each waypoint.
fn put_all_passes<W: Writer>(out: &mut W, sailing: &Sailing)
    ensures { Puts (fields_text default_writer (pass_fields sailing.now 0 sailing.now.port.waypoints)) (W.state out.old) (W.state out.new) }
{
    put_passes(out, sailing, 0, &sailing.parts().waypoints);
}

/// Puts the fields of a sailing.
pub fn put_sailing<W: Writer>(out: &mut W, sailing: &Sailing)
    ensures { Puts (fields_text default_writer (sailing_fields sailing.now)) (W.state out.old) (W.state out.new) }
{
    put_figures(out, sailing);
    put_all_passes(out, sailing);
}

//! The slots that a window denies its ship.

ghost use Rattle.std.specs.Prelude.{◌≡◌, ◌≤◌, ◌<◌, ◌^◌, is_some, length};
ghost use Rattle.hw_desk.specs.Writers.{Puts};
ghost use Rattle.hw_port_model.specs.Drafts.{value as value_at};
ghost use Rattle.hw_port_model.specs.Numbers.{horizon_of};
ghost use Rattle.hw_chart_clash.specs.Shapes.{denied_level, denied_mark, denied_sign, denied_steps, denied_window, clash_row_y};

use crate::lacking::horizon;
use hw_chart::plot;
use hw_chart_port::{places_of, slots_shown};
use hw_chart_svg::{Area, Levels, put_block, put_steps, put_svg_end, put_window_begin};
use hw_desk::Writer;
use hw_model::{ShipId, Slot};
use hw_port::Port;
use hw_tide::Tide;

/// Whether a ship may sail in a slot; none that isn't there may.
fn may_sail(port: &Port, tide: &Tide, ship: ShipId, slot: Slot) -> bool
    requires slot_in { slot < horizon_of port.now }
    requires columns { tide.now.columns ≡ length port.now.waypoints }
    ensures { result ≡ is_some (value_at port.now tide.now ship slot) }
{
    match port.parts().ships.get(ship as usize) {
        Some(_) => hw_draft::value(port, tide, ship, slot).is_some(),
        None => false,
    }
}

/// The slots in which a ship may not sail: the top of a window, and otherwise its foot.
#[derive(Drop)]
struct DeniedSlots<'c> {
    port: &'c Port,
    tide: &'c Tide,
    ship: ShipId,
    ghost columns: { tide.now.columns ≡ length port.now.waypoints },
}

impl Levels for DeniedSlots<'_> {
    ghost level = { λ d slot. denied_level d.port.now d.tide.now d.ship slot };

    ghost end = { λ d. horizon_of d.port.now };

    fn level(&self, slot: u32) -> u64 {
        if may_sail(self.port, self.tide, self.ship, slot) {
            1
        } else {
            0
        }
    }
}

/// How far down the row of a ship begins.
pub fn row_y(port: &Port, ship: ShipId) -> u64
    ensures value { result ≡ clash_row_y port.now ship }
    ensures few { result ≤ 2 ^ 40 }
{
    let places = places_of(port.parts());
    u64::from(places.rows) + 42 * u64::from(ship)
}

/// Puts a sign beside the name of a ship whose row begins here.
fn put_denied_sign<W: Writer>(out: &mut W, y: u64)
    requires { y ≤ 2 ^ 40 }
    ensures { Puts (denied_sign y) (W.state out.old) (W.state out.new) }
{
    let area = Area {
        left: 4,
        right: 12,
        top: y + 21,
        bottom: y + 33,
    };
    put_block(out, b"cw", area);
}

/// Puts the slots that a ship is denied, in a window one unit tall.
fn put_denied_slots<W: Writer>(out: &mut W, port: &Port, tide: &Tide, ship: ShipId)
    requires { tide.now.columns ≡ length port.now.waypoints }
    ensures { Puts (denied_steps port.now tide.now ship) (W.state out.old) (W.state out.new) }
{
    let levels = DeniedSlots { port, tide, ship };
    put_steps(out, b"cw", &levels, 0, horizon(port), 1);
}

/// Puts the slots that a ship is denied below its drafts.
fn put_denied_window<W: Writer>(out: &mut W, port: &Port, tide: &Tide, ship: ShipId, y: u64)
    requires y { y ≤ 2 ^ 40 }
    requires columns { tide.now.columns ≡ length port.now.waypoints }
    ensures { Puts (denied_window port.now tide.now ship y) (W.state out.old) (W.state out.new) }
{
    put_window_begin(out, plot(y + 26, 5, slots_shown(port, None), 1));
    put_denied_slots(out, port, tide, ship);
    put_svg_end(out);
}

/// Puts the mark of a kept window.
pub fn put_denied<W: Writer>(out: &mut W, port: &Port, tide: &Tide, ship: ShipId)
    requires { tide.now.columns ≡ length port.now.waypoints }
    ensures { Puts (denied_mark port.now tide.now ship) (W.state out.old) (W.state out.new) }
{
    let y = row_y(port, ship);
    put_denied_sign(out, y);
    put_denied_window(out, port, tide, ship, y);
}

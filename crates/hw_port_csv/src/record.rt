//! The record of a ship, and the header.

ghost use Rattle.std.specs.Prelude.{◌≡◌, ◌<◌, [], codes, length, map, nat_lt};
ghost use Rattle.csv.specs.Writing.{default_writer, fields_text, row_text};
ghost use Rattle.hw_desk.specs.Writers.{Puts};
ghost use Rattle.hw_port.specs.Kept.{ShipKept};
ghost use Rattle.hw_port_model.specs.Numbers.{horizon_of};
ghost use Rattle.hw_port_csv.specs.Entries.{table_entry};
ghost use Rattle.hw_port_csv.specs.Tables.{columns_text, course_fields, empty_fields, header, ship_record, ship_text};

use crate::field::{Field, put_comma, put_field, put_fields, put_line_end, put_next};
use crate::sailing::{Sailing, put_sailing};
use hw_desk::Writer;
use hw_draft::natural;
use hw_model::{ShipId, Slot};
use hw_port::{Port, Ship, Waypoint};
use hw_tide::Tide;

/// Puts the names of waypoints, each after a comma.
#[tactic(auto, unfolding(csv::specs::Writing::fields_text))]
fn put_names<W: Writer>(out: &mut W, waypoints: &[Waypoint])
    ensures { Puts (fields_text default_writer (map (λ w. w.name) waypoints.now)) (W.state out.old) (W.state out.new) }
{
    if let [waypoint, more @ ..] = waypoints {
        put_next(out, Field::Text(&waypoint.name.items));
        put_names(out, more);
    }
}

/// Puts the names of all waypoints.
fn put_all_names<W: Writer>(out: &mut W, port: &Port)
    ensures { Puts (fields_text default_writer (map (λ w. w.name) port.now.waypoints)) (W.state out.old) (W.state out.new) }
{
    put_names(out, &port.parts().waypoints);
}

/// Puts the names of the columns before those of the waypoints.
fn put_columns<W: Writer>(out: &mut W)
    ensures { Puts columns_text (W.state out.old) (W.state out.new) }
{
    out.put(
        b"ship,name,direction,slot,time,draft cm,allowed draft cm,limiting waypoint,under keel cm,least clearance cm,cargo t",
    );
}

/// Puts the header.
pub fn put_header<W: Writer>(out: &mut W, port: &Port)
    ensures { Puts (row_text default_writer (header port.now)) (W.state out.old) (W.state out.new) }
{
    put_columns(out);
    put_all_names(out, port);
    put_line_end(out);
}

/// Puts an empty field for each waypoint, each after a comma.
#[tactic(auto, unfolding(csv::specs::Writing::fields_text))]
fn put_no_passes<W: Writer>(out: &mut W, waypoints: &[Waypoint])
    ensures { Puts (fields_text default_writer (map (λ w. []) waypoints.now)) (W.state out.old) (W.state out.new) }
{
    if let [_, more @ ..] = waypoints {
        put_comma(out);
        put_no_passes(out, more);
    }
}

/// Puts an empty field for each waypoint of a port.
fn put_all_empty<W: Writer>(out: &mut W, port: &Port)
    ensures { Puts (fields_text default_writer (map (λ w. []) port.now.waypoints)) (W.state out.old) (W.state out.new) }
{
    put_no_passes(out, &port.parts().waypoints);
}

/// Puts eight empty fields, each after a comma.
fn put_no_figures<W: Writer>(out: &mut W)
    ensures { Puts (codes ",,,,,,,,") (W.state out.old) (W.state out.new) }
{
    out.put(b",,,,,,,,");
}

/// Puts the fields of a ship that stays.
fn put_stays<W: Writer>(out: &mut W, port: &Port)
    ensures { Puts (fields_text default_writer (empty_fields port.now.waypoints)) (W.state out.old) (W.state out.new) }
{
    put_no_figures(out);
    put_all_empty(out, port);
}

/// Whether a ship with this slot sails.
fn sails(port: &Port, slot: Slot) -> bool
    ensures { result ≡ nat_lt slot (horizon_of port.now) }
{
    slot < natural(port.parts().slots)
}

/// Puts what follows a ship's direction.
fn put_course<W: Writer>(
    out: &mut W,
    port: &Port,
    tide: &Tide,
    number: ShipId,
    ship: &Ship,
    slot: Slot,
)
    requires numbered { number < length port.now.ships }
    requires ship { ShipKept port.now ship.now }
    requires columns { tide.now.columns ≡ length port.now.waypoints }
    ensures { Puts (fields_text default_writer (course_fields port.now tide.now (table_entry number ship.now slot))) (W.state out.old) (W.state out.new) }
{
    if sails(port, slot) {
        let sailing = Sailing {
            port,
            tide,
            number,
            ship,
            slot,
        };
        put_sailing(out, &sailing);
    } else {
        put_stays(out, port);
    }
}

/// Puts a ship's number, name and direction.
fn put_ship<W: Writer>(out: &mut W, number: ShipId, ship: &Ship)
    ensures { Puts (ship_text number ship.now) (W.state out.old) (W.state out.new) }
{
    put_field(out, Field::Number(u64::from(number)));
    put_fields(
        out,
        &[
            Field::Text(&ship.name.items),
            Field::Text(&ship.direction.items),
        ],
    );
}

/// Puts the record of a ship.
pub fn put_record<W: Writer>(
    out: &mut W,
    port: &Port,
    tide: &Tide,
    number: ShipId,
    ship: &Ship,
    slot: Slot,
)
    requires numbered { number < length port.now.ships }
    requires ship { ShipKept port.now ship.now }
    requires columns { tide.now.columns ≡ length port.now.waypoints }
    ensures { Puts (row_text default_writer (ship_record port.now tide.now (table_entry number ship.now slot))) (W.state out.old) (W.state out.new) }
{
    put_ship(out, number, ship);
    put_course(out, port, tide, number, ship, slot);
    put_line_end(out);
}

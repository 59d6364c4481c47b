//! What is likely meant otherwise in a port with its tide.

ghost use Rattle.std.specs.Prelude.{◌≡◌, ◌+◌, ◌++◌, ◌≤◌, All, IfOk, OnOk, length};
ghost use Rattle.hw_port.specs.Kept.{PortKept, WaypointKept, Within};
ghost use Rattle.hw_port_lint.specs.Ports.{depth_hint, depth_hints, lint_text, or_clean, port_hints};

use crate::clock::put_clock;
use crate::doubt::{Doubt, put_doubt};
use crate::ships::put_ships;
use hw_draft::natural;
use hw_model::NoMemory;
use hw_port::{Port, Waypoint};
use std::alloc::{AllocError, Global};

/// Appends the line of a waypoint whose depth looks like metres.
fn put_depth(out: &mut Vec<u8>, number: u32, waypoint: &Waypoint) -> Result<(), AllocError>
    requires { WaypointKept waypoint.now }
    ensures { OnOk result (out.new.items ≡ out.old.items ++ depth_hint number waypoint.now) }
{
    let value = natural(waypoint.depth);
    if value < 30 {
        let doubt = Doubt {
            items: b"waypoints.",
            number,
            member: b".depth ",
            value,
            unit: b" metres ",
        };
        put_doubt(out, doubt, &waypoint.name.items)?;
    }
    Ok(())
}

/// Appends the lines of waypoints, the first of which has this number.
fn put_depths(out: &mut Vec<u8>, first: u32, waypoints: &[Waypoint]) -> Result<(), AllocError>
    requires few { first + length waypoints.now ≤ 16 }
    requires kept { All WaypointKept waypoints.now }
    ensures { OnOk result (out.new.items ≡ out.old.items ++ depth_hints first waypoints.now) }
{
    if let [waypoint, more @ ..] = waypoints {
        put_depth(out, first, waypoint)?;
        put_depths(out, first + 1, more)?;
    }
    Ok(())
}

/// Appends all that is likely meant otherwise.
fn put_hints(out: &mut Vec<u8>, port: &Port, rows: u32, table: &[u8]) -> Result<(), AllocError>
    ensures { OnOk result (out.new.items ≡ out.old.items ++ port_hints port.now rows table.now) }
{
    let parts = port.parts();
    put_depths(out, 0, &parts.waypoints)?;
    put_ships(out, parts, rows, 0, &parts.ships)?;
    put_clock(out, natural(parts.slot_minutes), table)
}

/// The hints on a port and the table that was read as its tide, with its number of rows, or `clean` where there is none.
pub fn lint_text(alloc: Global, port: &Port, rows: u32, table: &[u8]) -> Result<Vec<u8>, NoMemory>
    ensures { IfOk result (λ text. text.items ≡ lint_text port.now rows table.now) }
{
    let mut text = Vec::new(alloc);
    put_hints(&mut text, port, rows, table)?;
    if text.is_empty() {
        text.extend_from_slice(b"clean\n")?;
    }
    Ok(text)
}

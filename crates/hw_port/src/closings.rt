//! The meaning rules of closed slots: of the port, of a ship, of a waypoint.

ghost use Rattle.std.specs.Prelude.{◌≡◌, ◌≤◌, length};
ghost use Rattle.hw_port.specs.Faults.{fault_of, each};
ghost use Rattle.hw_port.specs.Closings.{at_closing as closing_path, closing_fault};

use crate::fault::{Path, PortFault};
use crate::parts::Closing;
use crate::places::Place;
use crate::rules::{at_item, at_least, at_part, place};

/// A place in an item of a list of closed slots: the port's list, or that of the item at `outer`.
fn at_closing(place: Place, outer: Option<u32>, k: u32) -> Path
    ensures { result ≡ closing_path place outer k }
{
    match outer {
        None => at_item(place, k),
        Some(i) => at_part(place, i, k),
    }
}

#[tactic(auto, unfolding(crate::specs::Closings::closing_fault))]
fn closing(
    from: Place,
    to: Place,
    outer: Option<u32>,
    many: i64,
    k: u32,
    c: &Closing,
) -> Result<(), PortFault>
    ensures { fault_of result ≡ closing_fault from to outer many k c.now }
{
    place(at_closing(from, outer, k), many, c.from)?;
    place(at_closing(to, outer, k), many, c.to)?;
    at_least(at_closing(to, outer, k), c.from, c.to)
}

/// The first fault of these, each of slots below `many`.
pub fn each_closing(
    from: Place,
    to: Place,
    outer: Option<u32>,
    many: i64,
    closings: &[Closing],
) -> Result<(), PortFault>
    requires { length closings.now ≤ 64 }
    ensures { fault_of result ≡ each (closing_fault from to outer many) 0 closings.now }
{
    for (k, c) in closings.iter().enumerate() {
        closing(from, to, outer, many, k as u32, c)?;
    }
    Ok(())
}

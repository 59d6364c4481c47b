//! The flat problem of a port.

ghost use Rattle.std.specs.Prelude.{◌≡◌, ◌+◌, length, IfOk, if◌then◌else◌};
ghost use Rattle.hw_flat.specs.TextWritten.{IsWritable};
ghost use Rattle.hw_port.specs.Kept.{PortKept};
ghost use Rattle.hw_port_model.specs.Numbers.{horizon_of, some_may_stay as some_stay};
ghost use Rattle.hw_port_model.specs.Flattened.{flattened};
ghost use Rattle.hw_port_model.specs.Alike.{IsSameProblem};

use crate::passage::natural;
use crate::rules::all_rules;
use crate::values::{all_values, some_may_stay};
use hw_flat::Flat;
use hw_model::{NoMemory, Rule};
use hw_port::Port;
use hw_tide::Tide;
use std::alloc::Global;

/// The flat problem of a port: its ships' values, a rule for every two ships of the same direction
/// or with a common section, one for each berth pair, and one on tugs if ships have some. If some
/// ship may stay, the problem has one more slot, which means staying.
///
/// The flat problem permits the same lists of slots as the port, and each carries the same cargo.
/// It has a text, since staying carries nothing. Each ship's value in each slot is computed once,
/// and the problem is held in memory.
pub fn flatten(alloc: Global, port: &Port, tide: &Tide) -> Result<Flat, NoMemory>
    requires columns { tide.now.columns ≡ length port.now.waypoints }
    ensures problem { IfOk result (λ flat. flat ≡ flattened port.now tide.now) }
    ensures same { IfOk result (λ flat. IsSameProblem port.now tide.now flat) }
    ensures writable { IfOk result (λ flat. IsWritable flat) }
{
    let parts = port.parts();
    let horizon = natural(parts.slots);
    let stay = some_may_stay(&parts.ships);
    let values = all_values(alloc, parts, tide, &parts.ships, horizon, stay)?;
    let rules = all_rules(alloc, parts)?;
    Ok(assembled(port, tide, stay, values, rules))
}

/// The number of a port's ships.
fn ship_count(port: &Port) -> u32
    ensures { result ≡ length port.now.ships }
{
    port.parts().ships.len() as u32
}

/// The number of slots of a port's flat problem: the slot that means staying comes after the
/// sailing slots.
fn slot_count(port: &Port, stay: bool) -> u32
    requires { stay ≡ some_stay port.now }
    ensures { result ≡ (if some_stay port.now then horizon_of port.now + 1 else horizon_of port.now) }
{
    let horizon = natural(port.parts().slots);
    if stay { horizon + 1 } else { horizon }
}

/// The flat problem of a port with these values and rules, which keeps the limits.
fn assembled(
    port: &Port,
    tide: &Tide,
    stay: bool,
    values: Vec<Option<u64>>,
    rules: Vec<Rule>,
) -> Flat
    requires kept { PortKept port.now }
    requires stay { stay ≡ (flattened port.now tide.now).stay }
    requires values { values.items ≡ (flattened port.now tide.now).values }
    requires rules { rules.items ≡ (flattened port.now tide.now).rules }
    ensures problem { result ≡ flattened port.now tide.now }
    ensures same { IsSameProblem port.now tide.now result }
    ensures writable { IsWritable result }
{
    Flat {
        ships: ship_count(port),
        slots: slot_count(port, stay),
        stay,
        values,
        rules,
    }
}

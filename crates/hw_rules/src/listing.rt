//! The list of a problem's sources, in order: windows by ship, rules by place, orders of three
//! ships, and the goal.
ghost use Rattle.std.specs.Prelude.{◌≡◌, ◌<◌, ◌+◌, IfOk, OnOk};
ghost use Rattle.hw_model.specs.declared.source.Source.TheVariants as kinds;
ghost use Rattle.hw_rules.specs.Sources.{AreSourcesOf, AreSourcesBefore, first_order_of, first_order_with};

use hw_flat::{Flat, NoMemory, ShipId, Source};
use std::alloc::{AllocFailed, Global};

/// Appends the windows of all ships.
fn push_windows(out: &mut Vec<Source>, flat: &Flat) -> Result<(), AllocFailed<Source>>
    ensures { OnOk result (AreSourcesBefore flat.now (kinds.Window 0) out.old.items → AreSourcesBefore flat.now (kinds.Rule 0) out.new.items) }
{
    let ships = flat.shape().ships;
    for ship in 0..ships {
        out.push(Source::Window { ship })?;
    }
    Ok(())
}

/// Appends all rules.
fn push_rules(out: &mut Vec<Source>, flat: &Flat) -> Result<(), AllocFailed<Source>>
    ensures { OnOk result (AreSourcesBefore flat.now (kinds.Rule 0) out.old.items → AreSourcesBefore flat.now (kinds.Order 0 1 2) out.new.items) }
{
    let rules = flat.shape().rules;
    for place in 0..rules {
        out.push(Source::Rule { place })?;
    }
    Ok(())
}

/// Appends the orders of two ships with each greater one.
fn push_thirds(
    out: &mut Vec<Source>,
    flat: &Flat,
    v: ShipId,
    w: ShipId,
) -> Result<(), AllocFailed<Source>>
    requires ascends { v < w }
    requires ship_in { w < flat.now.ships }
    ensures { OnOk result (AreSourcesBefore flat.now (first_order_with v w) out.old.items → AreSourcesBefore flat.now (first_order_with v (w + 1)) out.new.items) }
{
    let ships = flat.shape().ships;
    for x in w + 1..ships {
        out.push(Source::Order { v, w, x })?;
    }
    Ok(())
}

/// Appends the orders of a ship with every two greater ones.
fn push_seconds(out: &mut Vec<Source>, flat: &Flat, v: ShipId) -> Result<(), AllocFailed<Source>>
    requires ship_in { v < flat.now.ships }
    ensures { OnOk result (AreSourcesBefore flat.now (first_order_of v) out.old.items → AreSourcesBefore flat.now (first_order_of (v + 1)) out.new.items) }
{
    let ships = flat.shape().ships;
    for w in v + 1..ships {
        push_thirds(out, flat, v, w)?;
    }
    Ok(())
}

/// Appends the orders of every three ships.
fn push_orders(out: &mut Vec<Source>, flat: &Flat) -> Result<(), AllocFailed<Source>>
    ensures { OnOk result (AreSourcesBefore flat.now (kinds.Order 0 1 2) out.old.items → AreSourcesBefore flat.now kinds.Goal out.new.items) }
{
    let ships = flat.shape().ships;
    for v in 0..ships {
        push_seconds(out, flat, v)?;
    }
    Ok(())
}

/// All sources of a problem, in order: the windows by ship, the rules by place, the orders of three
/// ships v < w < x by v, w and x, and the goal. Forty ships have 9880 orders.
pub fn sources(alloc: Global, flat: &Flat) -> Result<Vec<Source>, NoMemory>
    ensures { IfOk result (λ list. AreSourcesOf flat.now list.items) }
{
    let mut out = Vec::new(alloc);
    push_windows(&mut out, flat)?;
    push_rules(&mut out, flat)?;
    push_orders(&mut out, flat)?;
    out.push(Source::Goal)?;
    Ok(out)
}

//! A sailing in numbers.

ghost use Rattle.std.specs.Prelude.{◌≡◌, ◌<◌, length, IfSome};
ghost use Rattle.hw_port_model.specs.Numbers.{horizon_of};
ghost use Rattle.hw_draft.specs.Passages.{PassageKept};
ghost use Rattle.hw_chart_port.specs.Sailings.{control_by, sailing_of};

use crate::chart::Chart;
use hw_draft::{Passage, natural};
use hw_model::{ShipId, Slot};

/// A sailing: its slot and how many minutes after slot 0 that begins, its draft and the draft that the slot allows, in
/// centimetres, the waypoint that decides this, the water under the keel and the clearance there, and the cargo in tenths of a
/// tonne.
#[derive(Clone, Copy)]
pub struct Sailing {
    pub slot: Slot,
    pub time: u64,
    pub draft: u32,
    pub allowed: u64,
    pub by: u32,
    pub keel: u64,
    pub clearance: u32,
    pub cargo: u64,
}

/// The waypoint that decides a draft, and the water under the keel and the clearance there.
#[derive(Clone, Copy)]
pub struct Control {
    pub by: u32,
    pub keel: u64,
    pub clearance: u32,
}

/// What the pass that limits a draft shows of a ship of this draft.
fn control_by(limit: Option<Passage>, draft: u32) -> Control
    requires { IfSome limit PassageKept }
    ensures { result ≡ control_by limit draft }
{
    match limit {
        Some(made) => Control {
            by: made.waypoint,
            keel: made.under_keel(i64::from(draft)).unsigned_abs(),
            clearance: natural(made.clearance),
        },
        None => Control {
            by: 0,
            keel: 0,
            clearance: 0,
        },
    }
}

/// A ship's sailing in a slot.
pub fn sailing_of(chart: &Chart, number: ShipId, slot: Slot) -> Sailing
    requires ship_in { number < length chart.now.port.ships }
    requires slot_in { slot < horizon_of chart.now.port }
    ensures { result ≡ sailing_of chart.now number slot }
{
    let _few = chart.horizon();
    let draft = chart.draft(number, slot);
    let control = control_by(chart.limit(number, slot), draft);
    Sailing {
        slot,
        time: chart.minutes_to(slot),
        draft,
        allowed: chart.allowed(number, slot).unwrap_or(0).unsigned_abs(),
        by: control.by,
        keel: control.keel,
        clearance: control.clearance,
        cargo: chart.cargo(number, slot),
    }
}

//! Whether an event is taken.

ghost use Rattle.std.specs.Prelude.{◌≡◌, ◌+◌, length, slice_index};
ghost use Rattle.hw_audit.specs.Audits.{state_of};
ghost use Rattle.hw_audit.specs.Watching.{IsWatched, refused_ship, refused_event};

use crate::event::PortEvent;
use crate::fault::AuditWord;
use hw_flat::Flat;
use hw_model::{ShipId, Slot};

/// The slot this many after a ship's slot.
fn delayed_slot(table: &[Slot], ship: ShipId, count: u32) -> u64
    ensures { result ≡ slice_index table.now ship + count }
{
    match table.get(ship as usize) {
        Some(slot) => u64::from(*slot) + u64::from(count),
        None => u64::from(count),
    }
}

/// Why an event that gives a ship this slot is refused, or none where it is taken.
fn refused_ship(
    flat: &Flat,
    table: &[Slot],
    sailed: &[bool],
    ship: ShipId,
    delayed: bool,
    slot: u64,
) -> Option<AuditWord>
    requires each_slot { length table.now ≡ flat.now.ships }
    requires each_ship { length sailed.now ≡ flat.now.ships }
    ensures { result ≡ refused_ship flat.now (state_of table.now sailed.now 0) ship delayed slot }
{
    if ship >= flat.shape().ships {
        return Some(AuditWord::Range);
    }
    if sailed[ship as usize] {
        return Some(AuditWord::Sailed);
    }
    if delayed && table[ship as usize] >= flat.horizon() {
        return Some(AuditWord::Stays);
    }
    if slot >= u64::from(flat.horizon()) {
        return Some(AuditWord::Range);
    }
    None
}

/// Why an event is refused, or none where it is taken.
pub(crate) fn refused(
    flat: &Flat,
    fleet: u32,
    table: &[Slot],
    sailed: &[bool],
    withdrawn: u32,
    event: PortEvent,
) -> Option<AuditWord>
    requires watched { IsWatched flat.now fleet (state_of table.now sailed.now withdrawn) }
    ensures { result ≡ refused_event flat.now fleet (state_of table.now sailed.now withdrawn) event }
{
    match event {
        PortEvent::Sailed { ship, slot } => {
            refused_ship(flat, table, sailed, ship, false, u64::from(slot))
        }
        PortEvent::Delayed { ship, count } => {
            let slot = delayed_slot(table, ship, count);
            refused_ship(flat, table, sailed, ship, true, slot)
        }
        PortEvent::Withdrawn { count } => {
            if fleet - withdrawn < count {
                Some(AuditWord::Fleet)
            } else {
                None
            }
        }
        PortEvent::Back { count } => {
            if withdrawn < count {
                Some(AuditWord::Fleet)
            } else {
                None
            }
        }
    }
}

//! How many ships a timetable moves.

ghost use Rattle.std.specs.Prelude.{◌≡◌, ◌≤◌, length};
ghost use Rattle.hw_repair.specs.Wishes.{wished, moved};

use crate::plan::{Plan, Wish};
use hw_flat::Timetable;
use hw_model::Slot;

/// The slot in which the ship has sailed, or for which it was planned.
fn wished(wish: &Wish) -> Slot
    ensures { result ≡ wished wish.now }
{
    match wish {
        Wish::Kept { slot } => *slot,
        Wish::Planned { slot, .. } => *slot,
    }
}

/// The number of ships whose slot isn't their wish's slot. It takes no memory.
pub fn moved(plan: &Plan, table: &Timetable) -> u32
    requires same_length { length plan.now.wishes ≡ length table.now }
    ensures value { result ≡ moved plan.now table.now }
    ensures few { result ≤ length table.now }
{
    let wishes: &[Wish] = &plan.wishes;
    let mut count = 0;
    for ship in 0..table.len() {
        if table.slot(ship) != wished(&wishes[ship as usize]) {
            count += 1;
        }
    }
    count
}

//! What ships carry.

ghost use Rattle.std.specs.Prelude.{◌≡◌, ◌<◌, ◌≤◌, ◌+◌, ◌*◌, length, All, map};
ghost use Rattle.hw_flat.specs.Carried.{worth};
ghost use Rattle.hw_repair.specs.Wishes.{wished, WishFits};
ghost use Rattle.hw_repair_text.specs.Fates.{worths};

use hw_flat::Flat;
use hw_model::{MOST_VALUE, ShipId, Slot};
use hw_repair::Wish;

/// What a ship carries in the slot of its wish, in tenths of a tonne.
pub fn planned_worth(flat: &Flat, ship: ShipId, wish: Wish) -> u64
    requires ship_in { ship < flat.now.ships }
    requires wish { WishFits flat.now.slots wish }
    ensures value { result ≡ worth flat.now ship (wished wish) }
    ensures small { result ≤ MOST_VALUE }
{
    match wish {
        Wish::Kept { slot } => flat.worth(ship, slot),
        Wish::Planned { slot, .. } => flat.worth(ship, slot),
    }
}

/// What the ships from this one on carry in these slots.
pub fn worths(flat: &Flat, ship: ShipId, slots: &[Slot]) -> u64
    requires ships { ship + length slots.now ≤ flat.now.ships }
    requires slots { All (λ slot. slot < flat.now.slots) slots.now }
    ensures value { result ≡ worths flat.now ship slots.now }
    ensures small { result ≤ length slots.now * MOST_VALUE }
{
    let _shape = flat.shape();
    match slots {
        [] => 0,
        [slot, more @ ..] => flat.worth(ship, *slot) + worths(flat, ship + 1, more),
    }
}

/// What the ships from this one on carry in the slots of their wishes.
pub fn planned_worths(flat: &Flat, ship: ShipId, wishes: &[Wish]) -> u64
    requires ships { ship + length wishes.now ≤ flat.now.ships }
    requires wishes { All (WishFits flat.now.slots) wishes.now }
    ensures value { result ≡ worths flat.now ship (map wished wishes.now) }
    ensures small { result ≤ length wishes.now * MOST_VALUE }
{
    let _shape = flat.shape();
    match wishes {
        [] => 0,
        [wish, more @ ..] => {
            planned_worth(flat, ship, *wish) + planned_worths(flat, ship + 1, more)
        }
    }
}

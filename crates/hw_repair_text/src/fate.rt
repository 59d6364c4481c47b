//! What a repair makes of a ship.

ghost use Rattle.std.specs.Prelude.{◌≡◌, ◌<◌};
ghost use Rattle.hw_model.specs.Problem.{stays};
ghost use Rattle.hw_repair.specs.Wishes.{wished};
ghost use Rattle.hw_repair_text.specs.Fates.{fate, wish_has_sailed};

use hw_flat::Flat;
use hw_model::Slot;
use hw_repair::Wish;

/// What a repair makes of a ship.
#[derive(Clone, Copy)]
pub enum Fate {
    /// It gets another slot than its wish's.
    Moved,
    /// It keeps its slot.
    Kept,
    /// It has sailed in its slot.
    Sailed,
}

/// The slot in which the ship has sailed, or for which it was planned.
pub fn wished(wish: Wish) -> Slot
    ensures { result ≡ wished wish }
{
    match wish {
        Wish::Kept { slot } => slot,
        Wish::Planned { slot, .. } => slot,
    }
}

/// Whether the ship has this slot because it stays.
pub fn stays(flat: &Flat, slot: Slot) -> bool
    ensures { result ≡ stays flat.now slot }
{
    flat.horizon() <= slot
}

/// Whether the ship has sailed.
fn has_sailed(flat: &Flat, wish: Wish) -> bool
    ensures { result ≡ wish_has_sailed flat.now wish }
{
    match wish {
        Wish::Kept { slot } => !stays(flat, slot),
        Wish::Planned { .. } => false,
    }
}

/// What a repair makes of a ship with this wish to which it gives this slot.
pub fn fate_of(flat: &Flat, wish: Wish, slot: Slot) -> Fate
    ensures { result ≡ fate flat.now wish slot }
{
    if slot != wished(wish) {
        return Fate::Moved;
    }
    if has_sailed(flat, wish) {
        Fate::Sailed
    } else {
        Fate::Kept
    }
}

//! Numbers of pairs of ships.

ghost use Rattle.std.specs.Prelude.{◌≡◌, ◌+◌, ◌*◌, min, max};

use hw_model::ShipId;

/// A number of two ships, whichever comes first. It is below the square of `ships` where both ships are below `ships`.
pub fn pair_number(ships: u32, v: ShipId, w: ShipId) -> usize
    ensures { result ≡ min v w * ships + max v w }
{
    v.min(w) as usize * ships as usize + v.max(w) as usize
}

//! What a seed moves in a search with prices.

ghost use Rattle.std.specs.Prelude.{◌≡◌, ◌%◌, ◌==◌};

use crate::settings::{FEWEST_STEPS, MORE_STEPS};
use hw_flat::ShipId;

/// What a seed moves: which ship is decided first where two are worth nearly the same, after which
/// restarts that is by regret, and for how many steps prices are moved in a room. Seed 0 moves nothing.
///
/// Of other seeds nothing is promised: whatever is decided is open in the room, as with seed 0.
#[derive(Clone, Copy)]
pub(crate) struct Variation {
    pub(crate) seed: u32,
}

impl Variation {
    pub(crate) fn of(seed: u32) -> Variation
        ensures seed { result.seed ≡ seed }
    {
        Variation { seed }
    }

    /// A ship's place among those that are worth the same, of which the lowest is decided first.
    pub(crate) fn place(self, ship: ShipId) -> u32
        ensures standing { self.seed ≡ 0 → result ≡ ship }
    {
        if self.seed == 0 {
            return ship;
        }
        mixed(self.seed, ship)
    }

    /// What a ship's worth counts when ships are compared: up to 255 parts more, of 512, 1024 or 2048. Nothing is known
    /// of other parts.
    pub(crate) fn worth(self, ship: ShipId, worth: i64) -> i64
        ensures standing { self.seed ≡ 0 → result ≡ worth }
    {
        if self.seed == 0 {
            return worth;
        }
        let part = match mixed(self.seed, u32::MAX) % 3 {
            0 => worth / 512,
            1 => worth / 1_024,
            _ => worth / 2_048,
        };
        let more = i64::from(mixed(self.seed, ship) % 256);
        worth.saturating_add(part.saturating_mul(more))
    }

    /// For how many steps prices are moved in a room, where these are the usual ones.
    pub(crate) fn steps(self, usual: u32) -> u32
        ensures standing { self.seed ≡ 0 → result ≡ usual }
    {
        if self.seed == 0 {
            return usual;
        }
        FEWEST_STEPS + mixed(self.seed, u32::MAX - 1) % MORE_STEPS
    }

    /// Whether ships are decided by regret after this many restarts, and not by what they earn.
    pub(crate) fn is_by_regret(self, restarts: u32) -> bool
        ensures standing { self.seed ≡ 0 → result ≡ (restarts % 2 == 1) }
    {
        if self.seed == 0 {
            return restarts % 2 == 1;
        }
        mixed(!self.seed, restarts) % 2 == 1
    }
}

/// A number that looks drawn, by multiplications and shifts as those that end xxHash.
fn mixed(seed: u32, place: u32) -> u32 {
    let sum = seed
        .wrapping_mul(2_654_435_761)
        .wrapping_add(place.wrapping_mul(3_266_489_917));
    let once = (sum ^ (sum >> 15)).wrapping_mul(2_246_822_519);
    let twice = (once ^ (once >> 13)).wrapping_mul(3_266_489_917);
    twice ^ (twice >> 16)
}

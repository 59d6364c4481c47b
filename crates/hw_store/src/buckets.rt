//! The numbers of the buckets: one for each slot of either bound of a ship and for each two ships.

ghost use Rattle.std.specs.Prelude.{◌≡◌, ◌+◌, ◌*◌, ◌<◌, ◌≤◌};
ghost use Rattle.hw_model.specs.declared.limits.TheConstants.{MOST_SHIPS, MOST_SLOTS};
ghost use Rattle.hw_model.specs.Lits.{IsLitOf};
ghost use Rattle.hw_model.specs.Rooms.{IsRoom};
ghost use Rattle.hw_store.specs.Numbering.{in_row, pair_bucket, bucket, bucket_count, HitsWithin};

use hw_flat::Room;
use hw_model::{Lit, ShipId, Slot};

/// How many ships and slots there are, by which the buckets are numbered.
#[derive(Clone, Copy)]
pub struct BucketMap {
    /// At most `MOST_SHIPS`.
    pub ships: u32,
    /// 1 to `MOST_SLOTS`, and one more.
    pub slots: u32,
    ghost few_ships: { ships ≤ MOST_SHIPS },
    ghost some_slots: { 1 ≤ slots },
    ghost few_slots: { slots ≤ MOST_SLOTS + 1 },
}

impl BucketMap {
    /// How many buckets there are.
    pub fn count(&self) -> u32
        ensures value { result ≡ bucket_count self.now.ships self.now.slots }
    {
        2 * self.ships * self.slots + self.ships * self.ships
    }

    /// The number of the bucket that a literal is in.
    pub fn bucket_of(&self, lit: Lit) -> usize
        requires fits { IsLitOf self.now.ships lit }
        ensures value { result ≡ bucket self.now.ships self.now.slots lit }
        ensures small { result < bucket_count self.now.ships self.now.slots }
    {
        match lit {
            Lit::AtOrAfter { ship, slot } => self.at_bound(ship, slot),
            Lit::Before { ship, slot } => self.at_bound(self.ships + ship, slot),
            Lit::First { v, w } => self.at_pair(v, w),
            Lit::NotFirst { v, w } => self.at_pair(v, w),
        }
    }

    /// The buckets of the literals that a cut makes False and that aren't False in the room: the first
    /// number, and the one after the last.
    pub fn buckets_hit(&self, room: &Room, cutting: Lit) -> (usize, usize)
        requires room { IsRoom room.now }
        requires same_ships { room.now.ships ≡ self.now.ships }
        requires fits { IsLitOf self.now.ships cutting }
        ensures within { HitsWithin self.now.ships self.now.slots room.now cutting result }
        ensures small { result.1 ≤ bucket_count self.now.ships self.now.slots }
    {
        match cutting {
            Lit::AtOrAfter { ship, slot } => (
                self.at_bound(self.ships + ship, room.low(ship) + 1),
                self.at_bound(self.ships + ship, slot) + 1,
            ),
            Lit::Before { ship, slot } => (
                self.at_bound(ship, slot),
                self.at_bound(ship, room.high(ship)) + 1,
            ),
            Lit::First { v, w } | Lit::NotFirst { v, w } => {
                let bucket = self.at_pair(v, w);
                (bucket, bucket + 1)
            }
        }
    }

    // The number of a slot in a row of bounds.
    fn at_bound(&self, row: u32, slot: Slot) -> usize
        requires row_in { row < 2 * self.now.ships }
        ensures value { result ≡ in_row self.now.slots row slot }
        ensures small { result < bucket_count self.now.ships self.now.slots }
    {
        (row * self.slots + slot.min(self.slots - 1)) as usize
    }

    // The number of two ships.
    fn at_pair(&self, v: ShipId, w: ShipId) -> usize
        requires ascends { v < w }
        requires ship_in { w < self.now.ships }
        ensures value { result ≡ pair_bucket self.now.ships self.now.slots v w }
        ensures small { result < bucket_count self.now.ships self.now.slots }
    {
        (2 * self.ships * self.slots + (v * self.ships + w)) as usize
    }
}

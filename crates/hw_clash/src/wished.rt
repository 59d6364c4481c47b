//! A flat problem with wishes of its ships.

ghost use Rattle.std.specs.Prelude.{◌≡◌, ◌<◌, ◌≤◌, ◌+◌, ◌&&◌, not, Some, slice_get};
ghost use Rattle.hw_model.specs.Limits.{IsFlat, ShapeFits};
ghost use Rattle.hw_model.specs.Problem.{shape_of, value_at};
ghost use Rattle.hw_model.specs.Timetables.{restriction_count};
ghost use Rattle.hw_clash.specs.Wished.{IsWished, is_granted, ruled, unplanned, with_wishes, wished_count};

use hw_flat::Flat;
use hw_model::{Rule, Shape, ShipId, Slot};
use hw_repair::Wish;
use std::marker::Model;

/// A flat problem, and wishes of its ships, ship 0 first: all of a plan's, or none. Its restrictions
/// are those of the problem by their numbers, and then the wishes. The rules stand apart from the
/// values, since a plan may leave fewer tugs.
#[derive(Drop)]
pub struct WishedFlat<'f> {
    pub(crate) flat: &'f Flat,
    rules: &'f [Rule],
    wishes: &'f [Wish],
}

impl<'f> Model for WishedFlat<'f> {
    ghost use Rattle.hw_clash.specs.Wished.{Wished, IsWished, ruled};

    ghost Value = { Wished };

    ghost view = { λ w. record { problem = ruled w.flat.now w.rules.now; wishes = w.wishes.now } };

    ghost invariant = { λ w. IsWished (record { problem = ruled w.flat.now w.rules.now; wishes = w.wishes.now }) };
}

impl<'f> WishedFlat<'f> {
    /// The problem without wishes.
    pub fn plain(flat: &'f Flat) -> WishedFlat<'f>
        ensures { result ≡ unplanned flat.now }
    {
        WishedFlat {
            flat,
            rules: flat.rules(),
            wishes: &[],
        }
    }

    /// The sizes and the values of the problem with these rules and wishes.
    pub fn of(flat: &'f Flat, rules: &'f [Rule], wishes: &'f [Wish]) -> WishedFlat<'f>
        requires fits { IsWished (with_wishes (ruled flat.now rules.now) wishes.now) }
        ensures { result ≡ with_wishes (ruled flat.now rules.now) wishes.now }
    {
        WishedFlat {
            flat,
            rules,
            wishes,
        }
    }

    /// The numbers of ships, slots and rules.
    pub(crate) fn shape(&self) -> Shape
        ensures value { result ≡ shape_of self.now.problem }
        ensures fits { ShapeFits result }
        ensures limits { IsFlat self.now.problem }
    {
        let shape = self.flat.shape();
        Shape {
            ships: shape.ships,
            slots: shape.slots,
            rules: self.rules.len() as u32,
        }
    }

    /// Whether ships may stay, in the last slot.
    pub(crate) fn may_stay(&self) -> bool
        ensures { result ≡ self.now.problem.stay }
    {
        self.flat.may_stay()
    }

    /// The value of a ship in a slot, in tenths of a tonne.
    pub(crate) fn value(&self, ship: ShipId, slot: Slot) -> Option<u64>
        requires ship_in { ship < self.now.problem.ships }
        requires slot_in { slot < self.now.problem.slots }
        ensures { result ≡ value_at self.now.problem ship slot }
    {
        self.flat.value(ship, slot)
    }

    /// The rules, in order.
    pub(crate) fn rules(&self) -> &[Rule]
        ensures value { result.now ≡ self.now.problem.rules }
        ensures limits { IsFlat self.now.problem }
    {
        self.rules
    }

    /// The number of restrictions.
    pub(crate) fn count(&self) -> u32
        ensures value { result ≡ wished_count self.now }
        ensures few { result ≤ 4_080 }
        ensures limits { IsWished self.now }
    {
        let shape = self.shape();
        shape.ships + shape.rules + self.wishes.len() as u32
    }

    /// The number of a ship's wish.
    pub(crate) fn wish_number(&self, ship: ShipId) -> u32
        requires { ship < self.now.problem.ships }
        ensures { result ≡ restriction_count self.now.problem + ship }
    {
        let shape = self.shape();
        shape.ships + shape.rules + ship
    }

    /// The wish of a ship, if it has one.
    pub(crate) fn wish(&self, ship: ShipId) -> Option<Wish>
        ensures { result ≡ slice_get self.now.wishes ship }
    {
        self.wishes.get(ship as usize).copied()
    }
}

/// Whether a ship with this wish, or none, may have a slot.
fn is_granted(wish: Option<Wish>, slot: Slot) -> bool
    ensures { result ≡ is_granted wish (Some slot) }
{
    match wish {
        Some(Wish::Kept { slot: sailed }) => slot == sailed,
        Some(Wish::Planned { from, .. }) => from <= slot,
        None => true,
    }
}

/// Whether a wish, if it is kept, doesn't grant a slot.
pub(crate) fn is_refused(is_kept: bool, wish: Option<Wish>, slot: Slot) -> bool
    ensures { result ≡ (is_kept && not (is_granted wish (Some slot))) }
{
    is_kept && !is_granted(wish, slot)
}

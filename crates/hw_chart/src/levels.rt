//! Figures made of others.

ghost use Rattle.std.specs.Prelude.{◌≡◌, ◌-◌, ◌<◌, ◌≤◌, min};
ghost use Rattle.hw_chart.specs.Figures.{full_level, greatest_level, is_met, is_reached, is_top_touched, whole_level};

use hw_chart_svg::Levels;

/// What a window shows that hangs from its top: in each slot how far an amount stays below the window's height.
#[derive(Drop)]
pub struct Rising<'l, L: Levels> {
    pub amounts: &'l L,
    pub tall: u64,
}

impl<L: Levels> Levels for Rising<'_, L> {
    ghost level = { λ r slot. r.tall - L.level r.amounts.now slot };

    ghost end = { λ r. L.end r.amounts.now };

    fn level(&self, slot: u32) -> u64 {
        self.tall.saturating_sub(self.amounts.level(slot))
    }
}

/// The slots in which an amount is all that there is: the window from top to foot, and otherwise its foot alone.
#[derive(Drop)]
pub struct Full<'l, L: Levels> {
    pub amounts: &'l L,
    pub all: u64,
    pub tall: u64,
}

impl<L: Levels> Levels for Full<'_, L> {
    ghost level = { λ f slot. full_level f.all f.tall (L.level f.amounts.now slot) };

    ghost end = { λ f. L.end f.amounts.now };

    fn level(&self, slot: u32) -> u64 {
        let amount = self.amounts.level(slot);
        if amount == self.all && amount > 0 {
            0
        } else {
            self.tall
        }
    }
}

/// The slots in which an amount is all that there is in its slot: that amount, and otherwise the foot of the window.
#[derive(Drop)]
pub struct Whole<'l, A: Levels, L: Levels> {
    pub all: &'l A,
    pub amounts: &'l L,
    pub tall: u64,
}

impl<A: Levels, L: Levels> Levels for Whole<'_, A, L> {
    ghost level = { λ w slot. whole_level (A.level w.all.now slot) w.tall (L.level w.amounts.now slot) };

    ghost end = { λ w. min (A.end w.all.now) (L.end w.amounts.now) };

    fn level(&self, slot: u32) -> u64 {
        let amount = self.amounts.level(slot);
        if amount == self.all.level(slot) && amount > 0 {
            self.tall.saturating_sub(amount)
        } else {
            self.tall
        }
    }
}

/// The greatest amount in the slots before an end, 0 where there is none.
pub fn greatest<L: Levels>(amounts: &L, end: u32) -> u64
    requires { end ≤ L.end amounts.now }
    ensures { result ≡ greatest_level (L.level amounts.now) end }
{
    let mut most = 0;
    for slot in 0..end {
        most = amounts.level(slot).max(most);
    }
    most
}

/// Whether a level is that of the top in one of the slots before an end.
pub fn touches_top<L: Levels>(levels: &L, end: u32) -> bool
    requires { end ≤ L.end levels.now }
    ensures { result ≡ is_top_touched (L.level levels.now) end }
{
    (0..end).any(|slot| levels.level(slot) == 0)
}

/// Whether an amount is all that there is in one of the slots before an end.
pub fn reaches<L: Levels>(amounts: &L, all: u64, end: u32) -> bool
    requires { end ≤ L.end amounts.now }
    ensures { result ≡ is_reached (L.level amounts.now) all end }
{
    (0..end).any(|slot| {
        let amount = amounts.level(slot);
        amount == all && amount > 0
    })
}

/// Whether an amount is all that there is in its slot, in one of the slots before an end.
pub fn meets<A: Levels, L: Levels>(amounts: &L, all: &A, end: u32) -> bool
    requires amounts { end ≤ L.end amounts.now }
    requires all { end ≤ A.end all.now }
    ensures { result ≡ is_met (L.level amounts.now) (A.level all.now) end }
{
    (0..end).any(
        |slot|
            requires amounts { slot < L.end amounts.now }
            requires all { slot < A.end all.now }
        {
            let amount = amounts.level(slot);
            amount == all.level(slot) && amount > 0
        },
    )
}

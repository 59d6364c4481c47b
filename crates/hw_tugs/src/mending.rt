//! Tugs added to a load, and taken away, from one slot on, before another.
ghost use Rattle.std.specs.Prelude.{◌≡◌, ℕ, ◌+◌, ◌<◌, ◌≤◌, length, slice_index};
ghost use Rattle.hw_tugs.specs.Held.{tugs_within};

/// Adds tugs to each slot from `from` on, before `to`. Slots after the load's last are left out.
///
/// It takes a step for each slot of the tugs_within.
pub(crate) fn add(load: &mut [u64], from: usize, to: usize, tugs: u32)
    requires small { (slot : ℕ) → slot < length load.old → slice_index load.old slot ≤ 10_000 }
    ensures length { length load.new ≡ length load.old }
    ensures added { (slot : ℕ) → slot < length load.old → slice_index load.new slot ≡ slice_index load.old slot + tugs_within from to tugs slot }
{
    let end = to.min(load.len());
    for slot in from..end {
        load[slot] += u64::from(tugs);
    }
}

/// Takes tugs away that were added.
pub(crate) fn take_away(load: &mut [u64], from: usize, to: usize, tugs: u32)
    requires held { (slot : ℕ) → slot < length load.old → tugs_within from to tugs slot ≤ slice_index load.old slot }
    ensures length { length load.new ≡ length load.old }
    ensures taken { (slot : ℕ) → slot < length load.old → slice_index load.new slot + tugs_within from to tugs slot ≡ slice_index load.old slot }
{
    let end = to.min(load.len());
    for slot in from..end {
        load[slot] -= u64::from(tugs);
    }
}

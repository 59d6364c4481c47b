//! The walk through the lists of slots, which keeps the first best one.

ghost use Rattle.std.specs.Prelude.{◌≡◌, ◌↔◌, ◌≤◌, ◌<◌, ℕ, IfOk, IfSome, IfNone, MatchBool, IsTrue, false, Some, None, length};
ghost use Rattle.hw_model.specs.Problem.{IsTimetable};
ghost use Rattle.hw_model.specs.Timetables.{Permits, NonePermitted, cargo, beats};
ghost use Rattle.hw_model.specs.Walk.{rank, table_count};
ghost use Rattle.hw_rules.specs.Outcomes.{WalkedTo, SomePermitted, IsBestFound, IsNoneLeft, IsSpent, FoundIsBest};
ghost use Rattle.hw_rules.specs.Listing.{kept, BestOfOneMore, answer};

use crate::goal::{beats, cargo_of};
use crate::lists::{advance, first_list};
use crate::outcome::Walked;
use crate::timetables::is_permitted;
use hw_flat::{Flat, Timetable};
use hw_model::{MOST_SHIPS, NoMemory, Slot};
use std::alloc::Global;

/// Goes through the lists of slots in lexicographic order, ship 0 first, and keeps the first
/// permitted one of greatest cargo. It looks at no more lists than the budget allows.
///
/// The rules are tested only on lists whose cargo is above the greatest so far.
pub fn walk(alloc: Global, flat: &Flat, budget: u32) -> Result<Walked, NoMemory>
    ensures walked { IfOk result (WalkedTo flat.now budget) }
    ensures optimal { IfOk result (FoundIsBest flat.now) }
    ensures best { IfOk result (λ w. IsBestFound w ↔ ((table_count flat.now ≤ budget) × SomePermitted flat.now)) }
    ensures none_left { IfOk result (λ w. IsNoneLeft w ↔ ((table_count flat.now ≤ budget) × NonePermitted flat.now)) }
    ensures spent { IfOk result (λ w. IsSpent w ↔ (budget < table_count flat.now)) }
{
    let ships = flat.shape().ships;
    let mut current = first_list(alloc, ships)?;
    let mut best = first_list(alloc, ships)?;
    walk_from(alloc, flat, budget, &mut current, &mut best)
}

/// Walks from the first list of slots on, and overwrites `best`.
fn walk_from(
    alloc: Global,
    flat: &Flat,
    budget: u32,
    current: &mut [Slot],
    best: &mut [Slot],
) -> Result<Walked, NoMemory>
    requires listed { IsTimetable flat.now current.old }
    requires first { rank flat.now.slots current.old ≡ 0 }
    requires same_length { length best.old ≡ length current.old }
    ensures { IfOk result (WalkedTo flat.now budget) }
{
    let slots = flat.shape().slots;
    let mut most = None;
    for _ in 0..budget {
        look(flat, current, best, &mut most);
        if !advance(current, slots) {
            return outcome(alloc, true, best, most);
        }
    }
    outcome(alloc, false, best, most)
}

/// Looks at the next list of slots, and keeps it if it is better than the best so far.
fn look(flat: &Flat, current: &[Slot], best: &mut [Slot], most: &mut Option<u64>)
    requires listed { IsTimetable flat.now current.now }
    requires same_length { length best.old ≡ length current.now }
    ensures { BestOfOneMore flat.now (rank flat.now.slots current.now) (kept best.old most.old) (kept best.new most.new) }
{
    if let Some(cargo) = better_cargo(flat, current, *most) {
        best.copy_from_slice(current);
        *most = Some(cargo);
    }
}

/// The cargo of a list of slots, if the list is permitted and carries more than the most so far.
fn better_cargo(flat: &Flat, current: &[Slot], most: Option<u64>) -> Option<u64>
    requires listed { IsTimetable flat.now current.now }
    ensures better { IfSome result (λ c. Permits flat.now current.now × (cargo flat.now current.now ≡ Some c) × IsTrue (beats c most)) }
    ensures no_better { IfNone result ((c : ℕ) → Permits flat.now current.now → cargo flat.now current.now ≡ Some c → beats c most ≡ false) }
{
    match cargo_of(flat, current) {
        Some(cargo) if beats(cargo, most) && is_permitted(flat, current) => Some(cargo),
        _ => None,
    }
}

/// The outcome of a walk that looked at all of the lists, or only at some.
fn outcome(alloc: Global, whole: bool, best: &[Slot], most: Option<u64>) -> Result<Walked, NoMemory>
    requires few { length best.now ≤ MOST_SHIPS }
    ensures { IfOk result (λ w. w ≡ answer whole best.now most) }
{
    match most {
        Some(cargo) => {
            let table = Timetable::from_slots(alloc, best)?;
            if whole {
                Ok(Walked::Best { table, cargo })
            } else {
                Ok(Walked::Spent { table: Some(table) })
            }
        }
        None if whole => Ok(Walked::NoneLeft),
        None => Ok(Walked::Spent { table: None }),
    }
}

//! The numbers of lines that no one keeps after a lemma, which are to be deleted.

ghost use Rattle.std.specs.Prelude.{◌≡◌, ◌≤◌, ◌++◌, ◌==◌, ℕ, ⊤, Contains, IfOk, OnOk, MatchBool, filter, filter_map, length, map, not, take};
ghost use Rattle.std.specs.List.{list_any};
ghost use Rattle.std.specs.List.Sorted.{IsStrictlyIncreasing};
ghost use Rattle.hw_search_ledger.specs.Dropped.{dropped, is_kept, unkept_of, number_list, IsLeftOver};

use hw_model::NoMemory;
use hw_store::Store;
use std::alloc::Global;

// The numbers that there are.
fn numbers_of(alloc: Global, written: &[Option<u32>]) -> Result<Vec<u32>, NoMemory>
    ensures value { IfOk result (λ numbers. numbers.items ≡ filter_map (λ number. number) written.now) }
{
    let mut numbers = Vec::new(alloc);
    for one in written {
        if let Some(number) = one {
            numbers.push(*number)?;
        }
    }
    Ok(numbers)
}

fn push_number(numbers: &mut Vec<u32>, number: Option<u32>) -> Result<(), NoMemory>
    ensures push { OnOk result (numbers.new.items ≡ numbers.old.items ++ number_list number) }
{
    match number {
        None => Ok(()),
        Some(number) => {
            numbers.push(number)?;
            Ok(())
        }
    }
}

// The numbers from a place on, and the conflict's own, each once, ascending.
fn ascending(
    alloc: Global,
    written: &[Option<u32>],
    keep: usize,
    conflict: Option<u32>,
) -> Result<Vec<u32>, NoMemory>
    requires upto { keep ≤ length written.now }
    ensures ascends { IfOk result (λ numbers. IsStrictlyIncreasing numbers.items) }
    ensures holds { IfOk result (λ numbers. (number : ℕ) → Contains numbers.items number → Contains (dropped written.now keep conflict) number) }
    ensures all { IfOk result (λ numbers. (number : ℕ) → Contains (dropped written.now keep conflict) number → Contains numbers.items number) }
{
    let mut numbers = numbers_of(alloc, &written[keep..])?;
    push_number(&mut numbers, conflict)?;
    numbers.sort_unstable();
    numbers.dedup();
    Ok(numbers)
}

// Whether some earlier number is among these too. A binary search for each earlier one.
fn meet(numbers: &[u32], earlier: &[u32]) -> bool
    requires ascends { IsStrictlyIncreasing numbers.now }
    ensures apart { MatchBool result ⊤ ((number : ℕ) → Contains numbers.now number → Contains earlier.now number → ⊥) }
{
    for number in earlier {
        if numbers.binary_search(number).is_ok() {
            return true;
        }
    }
    false
}

fn is_stored<S: Store>(store: &S, number: u32) -> bool
    ensures value { result ≡ list_any (λ one. one == number) (map (λ one. one.number) (S.clauses store.now)) }
{
    match store.clause(number) {
        None => false,
        Some(_clause) => true,
    }
}

fn is_among(numbers: &[u32], number: u32) -> bool
    ensures value { result ≡ list_any (λ one. one == number) numbers.now }
{
    for one in numbers {
        if *one == number {
            return true;
        }
    }
    false
}

// Whether a line is still needed. If `met` is false no earlier event names it, so the scan is skipped.
fn is_kept<S: Store>(store: &S, earlier: &[u32], met: bool, number: u32) -> bool
    requires apart { MatchBool met ⊤ (Contains earlier.now number → ⊥) }
    ensures value { result ≡ is_kept (S.clauses store.now) earlier.now number }
{
    if is_stored(store, number) {
        return true;
    }
    met && is_among(earlier, number)
}

// The numbers that are neither stored nor earlier ones.
fn unkept_of<S: Store>(
    alloc: Global,
    numbers: &[u32],
    earlier: &[u32],
    store: &S,
) -> Result<Vec<u32>, NoMemory>
    requires ascends { IsStrictlyIncreasing numbers.now }
    ensures value { IfOk result (λ ids. ids.items ≡ unkept_of (S.clauses store.now) earlier.now numbers.now) }
{
    let met = meet(numbers, earlier);
    let mut ids = Vec::new(alloc);
    for number in numbers {
        if !is_kept(store, earlier, met, *number) {
            ids.push(*number)?;
        }
    }
    Ok(ids)
}

/// The numbers of the lines that were written for reasons of events from a place on, and the
/// conflict's own, each once, ascending. Those of stored lemmas and of reasons before the place are
/// left out.
///
/// It goes through the written numbers once, and asks the store for each that is dropped.
pub(crate) fn dropped_numbers<S: Store>(
    alloc: Global,
    written: &[Option<u32>],
    keep: usize,
    conflict: Option<u32>,
    store: &S,
) -> Result<Vec<u32>, NoMemory>
    requires upto { keep ≤ length written.now }
    ensures left { IfOk result (λ ids. IsLeftOver (S.clauses store.now) written.now keep conflict ids.items) }
{
    let numbers = ascending(alloc, written, keep, conflict)?;
    let earlier = numbers_of(alloc, &written[..keep])?;
    unkept_of(alloc, &numbers, &earlier, store)
}

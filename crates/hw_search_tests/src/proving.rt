//! Whole solutions with an adviser that has nothing to say, against `solve`.

ghost use Rattle.std.specs.Prelude.{◌≤◌};

use crate::problems::{APART, CROWDED, NONE_FITS, TUGS};
use hw_cert::MemoryLog;
use hw_flat::{Flat, make_demo};
use hw_search::solve;
use hw_search_advice::NoAdvice;
use hw_search_advised::prove;
use std::alloc::Global;
use std::test::Fail;

// The answer of `solve`, and the lines that it hands to its log.
fn solved(alloc: Global, flat: &Flat, budget: u32) -> Result<String, Fail>
    requires least { 1 ≤ budget }
    requires most { budget ≤ 100_000 }
{
    let mut log = MemoryLog::new(alloc);
    let solved = solve(alloc, flat, budget, &mut log);
    Ok(format!(in alloc; "{:?} {:?}", solved, log.lines())?)
}

// The answer of `prove` with such an adviser, and the lines that it hands to its log; none if it came
// with a bound.
fn proved(alloc: Global, flat: &Flat, budget: u32) -> Result<Option<String>, Fail>
    requires least { 1 ≤ budget }
    requires most { budget ≤ 100_000 }
{
    let mut log = MemoryLog::new(alloc);
    let proved = prove(alloc, flat, budget, NoAdvice, &mut log);
    if proved.bound.is_some() {
        return Ok(None);
    }
    Ok(Some(format!(in alloc; "{:?} {:?}", proved.solved, log.lines())?))
}

// Whether both answer the same and write the very same lines.
fn is_same(alloc: Global, flat: &Flat, budget: u32) -> Result<bool, Fail> {
    let budget = budget.clamp(1, 100_000);
    let one = solved(alloc, flat, budget)?;
    match proved(alloc, flat, budget)? {
        Some(other) => Ok(one == other),
        None => Ok(false),
    }
}

const SAME: [(&[u8], u32); 5] = [
    (APART, 109),
    (APART, 1),
    (TUGS, 1324),
    (CROWDED, 2),
    (NONE_FITS, 109),
];

#[test]
fn prove_without_advice_is_solve(rt: HostRuntime) -> Result<(), Fail> {
    for (text, budget) in SAME {
        let flat = Flat::read(rt.alloc(), text)?;
        assert!(rt; is_same(rt.alloc(), &flat, budget)?, "{budget}");
    }
    let flat = make_demo(rt.alloc(), 11, 8, 96)?;
    for budget in 1..10 {
        assert!(rt; is_same(rt.alloc(), &flat, budget)?, "{budget}");
    }
    Ok(())
}

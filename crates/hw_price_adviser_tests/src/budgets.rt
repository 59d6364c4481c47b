//! Budgets: a plan that isn't finished has as many lemmas as its budget, and the bound that it answers is
//! the one that its lines show.

use crate::checked::{answered, checked};
use crate::early::plan;
use hw_cert::Line;
use hw_flat::{Flat, make_demo};
use hw_search::Solved;
use std::alloc::Global;
use std::process::Abort;
use std::test::Fail;

/// How many lemmas the lines have.
fn lemma_count(lines: &[Line]) -> usize {
    lines
        .iter()
        .filter(|line| matches!(line, Line::Lemma { .. }))
        .count()
}

/// Whether a budget is spent to its last lemma, there is a bound, and a checker says what is answered.
fn is_spent(alloc: Global, flat: &Flat, budget: u32, ahead: u32) -> Result<bool, Fail> {
    let (proved, lines) = plan(alloc, flat, budget, ahead);
    let unfinished = matches!(proved.solved, Solved::Unfinished { .. });
    let all = lemma_count(&lines) == budget as usize;
    let same = answered(flat, &proved) == Some(checked(alloc, flat, &lines)?);
    Ok(unfinished && all && same && proved.bound.is_some())
}

/// Whether each of some budgets is spent so, on a problem that needs more.
fn serve(rt: &impl Abort, alloc: Global, budgets: &[u32], ahead: u32) -> Result<(), Fail> {
    let flat = make_demo(alloc, 8, 8, 20)?;
    for budget in budgets {
        let spent = is_spent(alloc, &flat, *budget, ahead)?;
        assert!(rt; spent, "{budget}");
    }
    Ok(())
}

// No price is asked for before 32 lemmas, but for a bound where the budget is spent.
#[test]
fn small_budgets(rt: HostRuntime) -> Result<(), Fail> {
    serve(&rt, rt.alloc(), &[1, 31], 0)
}

#[test]
fn budgets_from_32_on(rt: HostRuntime) -> Result<(), Fail> {
    serve(&rt, rt.alloc(), &[32, 40], 0)
}

#[test]
fn budgets_with_early_prices(rt: HostRuntime) -> Result<(), Fail> {
    serve(&rt, rt.alloc(), &[2], 1_000)
}

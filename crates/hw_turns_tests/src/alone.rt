//! A crew of one searcher, with Greatest, hands on what a solution does.

use crate::problems::crew_lines;
use hw_cert::MemoryLog;
use hw_flat::{Flat, make_demo};
use hw_search::{Branching, solve};
use std::alloc::Global;
use std::test::Fail;

/// The lines of the crew as text.
fn crew_text(alloc: Global, flat: &Flat, budget: u32) -> Result<String, Fail> {
    match crew_lines(alloc, flat, &[Branching::Greatest], budget) {
        Some(lines) => Ok(format!(in alloc; "{:?}", lines.as_slice())?),
        None => Err(Fail::new("an order without turns")),
    }
}

/// The lines of a solution as text.
fn solve_text(alloc: Global, flat: &Flat, budget: u32) -> Result<String, Fail> {
    let mut log = MemoryLog::new(alloc);
    solve(alloc, flat, budget.clamp(1, 100_000), &mut log);
    Ok(format!(in alloc; "{:?}", log.lines())?)
}

// Smaller problems are among the whole runs of `tidewise_cases`.
#[test]
fn greatest_alone_is_a_solution(rt: HostRuntime) -> Result<(), Fail> {
    let alloc = rt.alloc();
    let demo = make_demo(alloc, 11, 8, 96)?;
    let crewed = crew_text(alloc, &demo, 200)?;
    let solved = solve_text(alloc, &demo, 200)?;
    assert!(rt; crewed == solved);
    Ok(())
}

//! Small problems: what a plan answers is what the walk through all timetables finds.

use crate::checked::{answered, checked};
use crate::drawn::{BY_THE_HOUR, problem};
use crate::early::plan;
use hw_cert::{Line, Verdict};
use hw_flat::Flat;
use hw_rules::{Walked, walk};
use std::alloc::Global;
use std::process::Abort;
use std::test::Fail;

/// How many problems a test has.
const MANY: u32 = 25;

/// What the walk through all timetables finds.
fn walked(alloc: Global, flat: &Flat) -> Result<Verdict, Fail> {
    match walk(alloc, flat, u32::MAX)? {
        Walked::Best { cargo, .. } => Ok(Verdict::Optimal(cargo)),
        Walked::NoneLeft => Ok(Verdict::Infeasible),
        Walked::Spent { .. } => Err(Fail::new("a problem that is too large")),
    }
}

/// Whether prices gave a clause.
fn is_advised(lines: &[Line]) -> bool {
    lines.iter().any(|line| matches!(line, Line::Priced { .. }))
}

/// Whether a plan is advised, none where it answers something else than the walk or than a checker of
/// its lines.
fn advised_if_right(alloc: Global, flat: &Flat) -> Result<Option<bool>, Fail> {
    let (proved, lines) = plan(alloc, flat, 100_000, 1_000);
    let Some(answer) = answered(flat, &proved) else {
        return Ok(None);
    };
    if answer.verdict != walked(alloc, flat)? || answer != checked(alloc, flat, &lines)? {
        return Ok(None);
    }
    Ok(Some(is_advised(&lines)))
}

/// How many plans of problems from a number on are advised. A wrong one ends it with its number.
fn advised_of(alloc: Global, first: u32, unit: u64) -> Result<Result<u32, u32>, Fail> {
    let mut advised = 0u32;
    for count in 0..MANY {
        let number = first.saturating_add(count);
        let flat = problem(alloc, number, unit)?;
        match advised_if_right(alloc, &flat)? {
            None => return Ok(Err(number)),
            Some(true) => advised = advised.saturating_add(1),
            Some(false) => {}
        }
    }
    Ok(Ok(advised))
}

/// Whether all plans of problems from a number on are right, and at least a fifth of them advised.
fn serve(rt: &impl Abort, alloc: Global, first: u32, unit: u64) -> Result<(), Fail> {
    let advised = advised_of(alloc, first, unit)?;
    let some = match advised {
        Ok(many) => MANY <= many.saturating_mul(5),
        Err(_number) => false,
    };
    assert!(rt; some, "{advised:?}");
    Ok(())
}

#[test]
fn problems_from_0_on(rt: HostRuntime) -> Result<(), Fail> {
    serve(&rt, rt.alloc(), 0, 1)
}

#[test]
fn problems_from_25_on(rt: HostRuntime) -> Result<(), Fail> {
    serve(&rt, rt.alloc(), 25, 1)
}

#[test]
fn problems_from_50_on(rt: HostRuntime) -> Result<(), Fail> {
    serve(&rt, rt.alloc(), 50, 1)
}

#[test]
fn problems_from_75_on(rt: HostRuntime) -> Result<(), Fail> {
    serve(&rt, rt.alloc(), 75, 1)
}

#[test]
fn problems_from_100_on(rt: HostRuntime) -> Result<(), Fail> {
    serve(&rt, rt.alloc(), 100, 1)
}

#[test]
fn problems_from_125_on(rt: HostRuntime) -> Result<(), Fail> {
    serve(&rt, rt.alloc(), 125, 1)
}

#[test]
fn problems_from_150_on(rt: HostRuntime) -> Result<(), Fail> {
    serve(&rt, rt.alloc(), 150, 1)
}

#[test]
fn problems_from_175_on(rt: HostRuntime) -> Result<(), Fail> {
    serve(&rt, rt.alloc(), 175, 1)
}

#[test]
fn problems_from_200_on(rt: HostRuntime) -> Result<(), Fail> {
    serve(&rt, rt.alloc(), 200, 1)
}

#[test]
fn problems_from_225_on(rt: HostRuntime) -> Result<(), Fail> {
    serve(&rt, rt.alloc(), 225, 1)
}

#[test]
fn problems_from_250_on(rt: HostRuntime) -> Result<(), Fail> {
    serve(&rt, rt.alloc(), 250, 1)
}

#[test]
fn problems_from_275_on(rt: HostRuntime) -> Result<(), Fail> {
    serve(&rt, rt.alloc(), 275, 1)
}

#[test]
fn problems_of_fleets_by_the_hour(rt: HostRuntime) -> Result<(), Fail> {
    serve(&rt, rt.alloc(), BY_THE_HOUR, 1)
}

#[test]
fn more_fleets_by_the_hour(rt: HostRuntime) -> Result<(), Fail> {
    serve(&rt, rt.alloc(), BY_THE_HOUR + MANY, 1)
}

// Values of up to the most cargo.
#[test]
fn problems_of_most_cargo(rt: HostRuntime) -> Result<(), Fail> {
    serve(&rt, rt.alloc(), 300, 10_000_000_000)
}

//! Problems at the limits of the flat text.

use crate::checked::{Shown, answered, checked};
use crate::early::plan;
use hw_cert::Verdict;
use hw_flat::Flat;
use hw_text::put_number;
use std::alloc::{AllocError, Global};
use std::test::Fail;

/// In tenths of a tonne.
const MOST: u64 = 1_000_000_000_000;

/// Appends a number after some text.
fn put(text: &mut Vec<u8>, before: &[u8], number: u64) -> Result<(), AllocError> {
    text.extend_from_slice(before)?;
    put_number(text, number)
}

/// Appends the values of a ship: the most in the middle slot, and less by a step for each slot on the way
/// to either end.
fn put_row(text: &mut Vec<u8>, step: u64) -> Result<(), AllocError> {
    text.extend_from_slice(b"v")?;
    for slot in 0..512u64 {
        let away = slot.abs_diff(256);
        put(text, b" ", MOST.saturating_sub(step.saturating_mul(away)))?;
    }
    text.extend_from_slice(b"\n")
}

/// Appends a rule for each two ships with numbers one apart: they sail two slots apart.
fn put_pairs(text: &mut Vec<u8>) -> Result<(), AllocError> {
    for w in 1..40u64 {
        put(text, b"p ", w - 1)?;
        put(text, b" ", w)?;
        text.extend_from_slice(b" -1:1\n")?;
    }
    Ok(())
}

/// Appends a rule on the tugs of all ships: each holds 64 of 1000 for a slot.
fn put_tugs(text: &mut Vec<u8>) -> Result<(), AllocError> {
    text.extend_from_slice(b"u 1000")?;
    for ship in 0..40u64 {
        put(text, b" ", ship)?;
        text.extend_from_slice(b":64:1")?;
    }
    text.extend_from_slice(b"\n")
}

/// The most ships and slots, with values of up to the most cargo. The step is that of the second ship, and
/// each ship has a larger one than the ship before it.
fn largest(alloc: Global, step: u64) -> Result<Flat, Fail> {
    let mut text = Vec::from_slice(alloc, b"flat 1\nsize 40 512\n")?;
    for ship in 0..40u64 {
        put_row(&mut text, ship.saturating_mul(step))?;
    }
    put_pairs(&mut text)?;
    put_tugs(&mut text)?;
    text.extend_from_slice(b"end\n")?;
    Ok(Flat::read(alloc, &text)?)
}

/// What a plan with a small budget answers, none where a checker of its lines says something else.
fn answer_if_right(alloc: Global, step: u64, budget: u32) -> Result<Option<Shown>, Fail> {
    let flat = largest(alloc, step)?;
    let (proved, lines) = plan(alloc, &flat, budget, 1_000);
    let shown = checked(alloc, &flat, &lines)?;
    Ok(answered(&flat, &proved).filter(|answer| *answer == shown))
}

#[test]
fn the_largest_problem(rt: HostRuntime) -> Result<(), Fail> {
    let answer = answer_if_right(rt.alloc(), 97_000_000, 1)?;
    assert!(rt; answer.is_some());
    Ok(())
}

// Each ship carries as much in each slot, and there are slots enough for all.
#[test]
fn the_most_cargo(rt: HostRuntime) -> Result<(), Fail> {
    let answer = answer_if_right(rt.alloc(), 0, 100)?;
    let verdict = answer.map(|answer| answer.verdict);
    assert_eq!(rt; verdict, Some(Verdict::Optimal(40_000_000_000_000)));
    Ok(())
}

//! Whole solutions: the turns of a search against `solve`, and over both stores the best timetables
//! that were worked out by hand.

ghost use Rattle.std.specs.Prelude.{◌≤◌};

use crate::problems::{
    APART, CROWDED, DAY, NONE_FITS, NOTHING, ONE, PASSING, PRECEDENCE, TUGS, largest,
};
use crate::turns::{Run, whole_run};
use hw_cert::{Line, MemoryLog};
use hw_flat::{Flat, ShipId, Slot, Timetable, make_demo};
use hw_model::Lit;
use hw_search::solve;
use hw_store::{ScanStore, WatchStore};
use std::alloc::Global;
use std::process::Abort;
use std::test::Fail;

// The lines that a solution hands to its log.
fn solved_lines(alloc: Global, flat: &Flat, budget: u32) -> Result<String, Fail>
    requires least { 1 ≤ budget }
    requires most { budget ≤ 100_000 }
{
    let mut log = MemoryLog::new(alloc);
    solve(alloc, flat, budget, &mut log);
    Ok(format!(in alloc; "{:?}", log.lines())?)
}

// The lines that the turns of a search hand to their log, of which there are some.
fn turned_lines(rt: &impl Abort, alloc: Global, flat: &Flat, budget: u32) -> Result<String, Fail>
    requires most { budget ≤ 100_000 }
{
    let store = WatchStore::new(alloc, flat)?;
    let mut log = MemoryLog::new(alloc);
    whole_run(alloc, flat, store, budget, &mut log)?;
    assert!(rt; !log.lines().is_empty());
    Ok(format!(in alloc; "{:?}", log.lines())?)
}

// Whether a solution and the turns of a search hand the same lines, and some, to their logs.
fn same_lines(rt: &impl Abort, alloc: Global, flat: &Flat, budget: u32) -> Result<bool, Fail> {
    let budget = budget.clamp(1, 100_000);
    let one = solved_lines(alloc, flat, budget)?;
    let other = turned_lines(rt, alloc, flat, budget)?;
    Ok(one == other)
}

const SAME: [(&[u8], u32); 4] = [(APART, 109), (TUGS, 1324), (CROWDED, 2), (APART, 1)];

#[test]
fn solve_is_turns(rt: HostRuntime) -> Result<(), Fail> {
    for (text, budget) in SAME {
        let flat = Flat::read(rt.alloc(), text)?;
        assert!(rt; same_lines(&rt, rt.alloc(), &flat, budget)?, "{budget}");
    }
    Ok(())
}

// After the last lemma of some of these budgets comes a better timetable, the first time at budget
// 2. A solution that went on there would write one more line, which its clause lets through.
#[test]
fn solve_is_turns_of_a_demonstration(rt: HostRuntime) -> Result<(), Fail> {
    let flat = make_demo(rt.alloc(), 11, 8, 96)?;
    for budget in 1..25 {
        assert!(rt; same_lines(&rt, rt.alloc(), &flat, budget)?, "{budget}");
    }
    assert!(rt; same_lines(&rt, rt.alloc(), &flat, 200)?);
    Ok(())
}

/// A name, a text, a budget, whether the search ends within it, and the best timetables, of which
/// it finds one; none where none is permitted.
type Row = (
    &'static str,
    &'static [u8],
    u32,
    bool,
    &'static [&'static [Slot]],
);

const FOUND: [Row; 9] = [
    ("the best slot", ONE, 7, true, &[&[2]]),
    ("a slot between", APART, 109, true, &[&[0, 2], &[2, 0]]),
    ("one lemma", APART, 1, false, &[&[2, 0]]),
    ("a cargo of nothing", NOTHING, 7, true, &[&[0]]),
    ("two slots between", NONE_FITS, 109, true, &[]),
    ("three tugs", TUGS, 1324, true, &[&[0, 3], &[3, 0]]),
    ("a berth", PRECEDENCE, 109, true, &[&[0, 2]]),
    ("a passing basin", PASSING, 109, true, &[&[2, 2]]),
    ("three in two slots", CROWDED, 2, true, &[]),
];

/// The store that a search keeps its lemmas in.
#[derive(Clone, Copy, Debug)]
enum Kept {
    /// The one that looks at each lemma.
    Plain,
    /// The one that looks at those of which a watched literal became False.
    Watching,
}

// The outcome of a whole run over a store, and its lines.
fn run_over(alloc: Global, flat: &Flat, kept: Kept, budget: u32) -> Result<(Run, Vec<Line>), Fail> {
    let budget = budget.min(100_000);
    let mut log = MemoryLog::new(alloc);
    let run = match kept {
        Kept::Plain => whole_run(alloc, flat, ScanStore::new(alloc, flat), budget, &mut log)?,
        Kept::Watching => {
            let store = WatchStore::new(alloc, flat)?;
            whole_run(alloc, flat, store, budget, &mut log)?
        }
    };
    Ok((run, log.into_lines()))
}

fn is_among(best: &Option<Timetable>, wanted: &[&[Slot]]) -> bool {
    match best {
        Some(table) => wanted.iter().any(|one| *one == table.as_slice()),
        None => wanted.is_empty(),
    }
}

// Whether a run over a store ends as the row says.
fn ends_as(alloc: Global, kept: Kept, row: &Row) -> Result<bool, Fail> {
    let (_, text, budget, ended, wanted) = row;
    let flat = Flat::read(alloc, text)?;
    let (run, _lines) = run_over(alloc, &flat, kept, *budget)?;
    Ok(run.ended == *ended && is_among(&run.best, wanted))
}

// The least and the greatest ship of which a literal speaks.
fn ships_of(lit: Lit) -> (ShipId, ShipId) {
    match lit {
        Lit::AtOrAfter { ship, .. } | Lit::Before { ship, .. } => (ship, ship),
        Lit::First { v, w } | Lit::NotFirst { v, w } => (v, w),
    }
}

/// What a lemma says: whether it has literals, and the least and the greatest ship that they may
/// speak of.
type Taught = (bool, ShipId, ShipId);

fn is_taught(lits: &[Lit], taught: &Taught) -> bool {
    let (some, least, most) = *taught;
    let within = lits.iter().all(|lit| {
        let (v, w) = ships_of(*lit);
        least <= v && w <= most
    });
    within && lits.is_empty() != some
}

// Whether these are the lemmas of the lines, and no others.
fn teach(lines: &[Line], lemmas: &[Taught]) -> bool {
    let mut count = 0usize;
    for line in lines {
        if let Line::Lemma { clause, .. } = line {
            match lemmas.get(count) {
                Some(taught) if is_taught(clause.as_slice(), taught) => {}
                _ => return false,
            }
            count = count.saturating_add(1);
        }
    }
    count == lemmas.len()
}

const LEMMAS: [(&[u8], u32, &[Taught]); 2] = [
    (CROWDED, 2, &[(true, 3, 5), (false, 0, 0)]),
    (APART, 1, &[(true, 0, 1)]),
];

// Whether the lemmas over a store are these.
fn teaches(
    alloc: Global,
    kept: Kept,
    text: &[u8],
    budget: u32,
    lemmas: &[Taught],
) -> Result<bool, Fail> {
    let flat = Flat::read(alloc, text)?;
    let (_run, lines) = run_over(alloc, &flat, kept, budget)?;
    Ok(teach(&lines, lemmas))
}

// Whether one lemma's search over a store in the largest problem leaves the second ship in slot 1
// and all others in slot 0.
fn serves_the_largest(alloc: Global, kept: Kept) -> Result<bool, Fail> {
    let text = largest(alloc)?;
    let flat = Flat::read(alloc, &text)?;
    let (run, _lines) = run_over(alloc, &flat, kept, 1)?;
    let mut slots = [0; 40];
    slots[1] = 1;
    Ok(!run.ended && is_among(&run.best, &[slots.as_slice()]))
}

// The cargo of a timetable, in tenths of a tonne, or less where a ship has no value in its slot.
fn cargo_of(flat: &Flat, table: &Timetable) -> u64 {
    let shape = flat.shape();
    let mut sum: u64 = 0;
    let mut ship = 0;
    for slot in table.as_slice() {
        if ship < shape.ships && *slot < shape.slots {
            sum = sum.saturating_add(flat.value(ship, *slot).unwrap_or(0));
            ship += 1;
        }
    }
    sum
}

// Whether a search over a store shows the greatest cargo of a day.
fn serves_a_day(alloc: Global, kept: Kept) -> Result<bool, Fail> {
    let flat = Flat::read(alloc, DAY)?;
    let (run, _lines) = run_over(alloc, &flat, kept, 100_000)?;
    match &run.best {
        Some(table) => Ok(run.ended && cargo_of(&flat, table) == 4_084_100),
        None => Ok(false),
    }
}

fn serves(rt: &impl Abort, alloc: Global, kept: Kept) -> Result<(), Fail> {
    for row in &FOUND {
        assert!(rt; ends_as(alloc, kept, row)?, "{}", row.0);
    }
    for (text, budget, lemmas) in LEMMAS {
        assert!(rt; teaches(alloc, kept, text, budget, lemmas)?, "{lemmas:?}");
    }
    assert!(rt; serves_the_largest(alloc, kept)?);
    assert!(rt; serves_a_day(alloc, kept)?);
    Ok(())
}

#[test]
fn a_plain_store_serves(rt: HostRuntime) -> Result<(), Fail> {
    serves(&rt, rt.alloc(), Kept::Plain)
}

#[test]
fn a_watching_store_serves(rt: HostRuntime) -> Result<(), Fail> {
    serves(&rt, rt.alloc(), Kept::Watching)
}

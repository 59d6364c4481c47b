//! Lines that close a part without a decision: its room is narrowed by clauses and sources until a
//! clause has no literal left there.
//!
//! Nothing is promised of what is found but the form of its lines: each is checked before it is taken.

ghost use Rattle.std.specs.Prelude.{◌≡◌, ◌-◌, ◌^◌, All, IfOk, IfSome, OnOk, min};
ghost use Rattle.hw_cert_lines.specs.Lines.{clause_count};
ghost use Rattle.hw_cert_lines.specs.Valid.{LineFits};
ghost use Rattle.hw_model.specs.Lits.{IsClause};
ghost use Rattle.hw_model.specs.Problem.{shape_of};
ghost use Rattle.hw_model.specs.Refuting.{IsSourceOf};
ghost use Rattle.hw_model.specs.Rooms.{RoomFits};
ghost use Rattle.hw_cert_closes.specs.Narrowings.{AreClosing, GroundFits, IsUnderWay};

use crate::closed::{clause_lines, clause_of};
use crate::deletions::{deleted, is_deleted};
use hw_cert_lines::{Hints, Line};
use hw_flat::{Flat, NoMemory, Room};
use hw_lits::{Clause, Found, clause_of_room, narrow};
use hw_model::{Narrowed, Source};
use hw_prop::{BySource, shaved};
use hw_rules::sources;
use std::alloc::Global;

/// How many passes there are at most. Each but the last cuts the room, which has fewer bounds and orders.
const MOST_PASSES: u32 = 22_000;

/// What a room is narrowed by: the clauses of lines, and sources.
#[derive(Drop)]
pub struct Ground<'l> {
    pub flat: &'l Flat,
    pub lines: &'l [Line],
    /// A mark for each number of a clause, from 0 on: whether it was deleted. None after the last one
    /// that was.
    pub deleted: Vec<bool>,
    pub sources: Vec<Source>,
    /// The best cargo of the lines, in tenths of a tonne.
    pub best: Option<u64>,
}

/// A room that is narrowed, and what its cuts need.
#[derive(Drop)]
pub struct Narrowing {
    pub room: Room,
    /// The numbers of the clauses that cut it, in order.
    pub hints: Vec<u32>,
    /// The lines of the clauses that sources gave.
    pub lines: Vec<Line>,
    /// How many clause lines there are, with these.
    pub clauses: u32,
}

/// What a clause, or a pass over several, did to a room.
#[derive(Clone, Copy)]
enum Pass {
    Quiet,
    Cut,
    /// A clause has no literal left.
    Conflict,
}

/// Lines that close a part after lines of this best cargo: those of the sources' clauses, and a lemma
/// that only the part makes false. None where it takes a decision.
pub fn closing_lines(
    alloc: Global,
    flat: &Flat,
    lines: &[Line],
    best: Option<u64>,
    part: &Room,
) -> Result<Option<Vec<Line>>, NoMemory>
    requires fit { All (LineFits flat.now) lines.now }
    requires part { RoomFits flat.now part.now }
    ensures { IfOk result (λ found. IfSome found (λ more. AreClosing flat.now more.items)) }
{
    let ground = Ground {
        flat,
        lines,
        deleted: deleted(alloc, lines)?,
        sources: sources(alloc, flat)?,
        best,
    };
    match narrowed(alloc, &ground, part)? {
        Some(narrowing) => Ok(Some(concluded(alloc, flat, part, narrowing)?)),
        None => Ok(None),
    }
}

/// The part's room, narrowed until a clause has no literal left there; none where nothing more cuts it.
fn narrowed(alloc: Global, ground: &Ground<'_>, part: &Room) -> Result<Option<Narrowing>, NoMemory>
    requires ground { GroundFits ground.now }
    requires part { RoomFits ground.now.flat.now part.now }
    ensures { IfOk result (λ found. IfSome found (IsUnderWay ground.now.flat.now)) }
{
    let mut narrowing = Narrowing {
        room: part.copy(alloc)?,
        hints: Vec::new(alloc),
        lines: Vec::new(alloc),
        clauses: count_clauses(ground.lines),
    };
    'passes: for _pass in 0..MOST_PASSES {
        match one_pass(alloc, ground, &mut narrowing)? {
            Pass::Quiet => return Ok(None),
            Pass::Cut => {}
            Pass::Conflict => return Ok(Some(narrowing)),
        }
    }
    Ok(None)
}

/// A pass over the clauses, and, where they are quiet, one over the sources.
fn one_pass(alloc: Global, ground: &Ground<'_>, narrowing: &mut Narrowing) -> Result<Pass, NoMemory>
    requires ground { GroundFits ground.now }
    requires under_way { IsUnderWay ground.now.flat.now narrowing.old }
    ensures { OnOk result (IsUnderWay ground.now.flat.now narrowing.new) }
{
    match by_clauses(ground, narrowing)? {
        Pass::Quiet => by_sources(alloc, ground, narrowing),
        Pass::Cut => Ok(Pass::Cut),
        Pass::Conflict => Ok(Pass::Conflict),
    }
}

/// Narrows the room by each clause that may be named.
fn by_clauses(ground: &Ground<'_>, narrowing: &mut Narrowing) -> Result<Pass, NoMemory>
    requires ground { GroundFits ground.now }
    requires under_way { IsUnderWay ground.now.flat.now narrowing.old }
    ensures { OnOk result (IsUnderWay ground.now.flat.now narrowing.new) }
{
    let mut passed = Pass::Quiet;
    let mut number = 0u32;
    let lines: &[Line] = ground.lines;
    for line in lines {
        number = number.saturating_add(clause_lines(line));
        match by_line(ground, line, number, narrowing)? {
            Pass::Quiet => {}
            Pass::Cut => passed = Pass::Cut,
            Pass::Conflict => return Ok(Pass::Conflict),
        }
    }
    Ok(passed)
}

/// Narrows the room by the clause of a line, if it has one that may be named.
fn by_line(
    ground: &Ground<'_>,
    line: &Line,
    number: u32,
    narrowing: &mut Narrowing,
) -> Result<Pass, NoMemory>
    requires fits { LineFits ground.now.flat.now line.now }
    requires under_way { IsUnderWay ground.now.flat.now narrowing.old }
    ensures { OnOk result (IsUnderWay ground.now.flat.now narrowing.new) }
{
    match clause_of(line) {
        Some(clause) => {
            if is_deleted(&ground.deleted, number) {
                Ok(Pass::Quiet)
            } else {
                by_clause(ground.flat, clause, number, narrowing)
            }
        }
        None => Ok(Pass::Quiet),
    }
}

/// Asks each source, and narrows the room by its clause.
fn by_sources(
    alloc: Global,
    ground: &Ground<'_>,
    narrowing: &mut Narrowing,
) -> Result<Pass, NoMemory>
    requires ground { GroundFits ground.now }
    requires under_way { IsUnderWay ground.now.flat.now narrowing.old }
    ensures { OnOk result (IsUnderWay ground.now.flat.now narrowing.new) }
{
    let mut passed = Pass::Quiet;
    let sources: &[Source] = &ground.sources;
    for source in sources {
        match by_source(alloc, ground, *source, narrowing)? {
            Pass::Quiet => {}
            Pass::Cut => passed = Pass::Cut,
            Pass::Conflict => return Ok(Pass::Conflict),
        }
    }
    Ok(passed)
}

/// Asks a source. Where it isn't quiet, the line of its clause is kept.
fn by_source(
    alloc: Global,
    ground: &Ground<'_>,
    source: Source,
    narrowing: &mut Narrowing,
) -> Result<Pass, NoMemory>
    requires source_in { IsSourceOf ground.now.flat.now source }
    requires under_way { IsUnderWay ground.now.flat.now narrowing.old }
    ensures { OnOk result (IsUnderWay ground.now.flat.now narrowing.new) }
{
    let _shape = ground.flat.shape();
    let test = BySource {
        flat: ground.flat,
        source,
        best: ground.best,
    };
    match shaved(alloc, &test, &narrowing.room)? {
        Found::Quiet => Ok(Pass::Quiet),
        Found::Clause(clause) => {
            narrowing.clauses = narrowing.clauses.saturating_add(1);
            let number = narrowing.clauses;
            let passed = by_clause(ground.flat, &clause, number, narrowing)?;
            let line = Line::of_source(ground.flat, source, clause);
            narrowing.lines.push(line)?;
            Ok(passed)
        }
    }
}

/// Narrows the room by a clause, and keeps its number where it cuts the room or has no literal left.
#[tactic(auto, using(crate::proofs::Narrowings::room_lits))]
fn by_clause(
    flat: &Flat,
    clause: &Clause,
    number: u32,
    narrowing: &mut Narrowing,
) -> Result<Pass, NoMemory>
    requires clause { IsClause (shape_of flat.now) clause.now }
    requires under_way { IsUnderWay flat.now narrowing.old }
    ensures under_way { OnOk result (IsUnderWay flat.now narrowing.new) }
{
    let step = narrow(clause, &mut narrowing.room);
    let _ships = narrowing.room.ships();
    match step {
        Narrowed::Same | Narrowed::Loose { .. } => Ok(Pass::Quiet),
        Narrowed::Cut(_) => {
            narrowing.hints.push(number)?;
            Ok(Pass::Cut)
        }
        Narrowed::Conflict => {
            narrowing.hints.push(number)?;
            Ok(Pass::Conflict)
        }
    }
}

/// The lines of the sources' clauses, and the lemma that the part alone makes false.
fn concluded(
    alloc: Global,
    flat: &Flat,
    part: &Room,
    narrowing: Narrowing,
) -> Result<Vec<Line>, NoMemory>
    requires part { RoomFits flat.now part.now }
    requires under_way { IsUnderWay flat.now narrowing }
    ensures { IfOk result (λ more. AreClosing flat.now more.items) }
{
    let clause = clause_of_room(alloc, part)?;
    let Narrowing {
        room: _,
        hints,
        mut lines,
        clauses: _,
    } = narrowing;
    lines.push(Line::Lemma {
        clause,
        hints: Hints { items: hints },
    })?;
    Ok(lines)
}

/// How many of the lines are clause lines; the greatest `u32` where there are more.
pub fn count_clauses(lines: &[Line]) -> u32
    ensures { result ≡ min (clause_count lines.now) (2 ^ 32 - 1) }
{
    let mut count = 0u32;
    for line in lines {
        count = count.saturating_add(clause_lines(line));
    }
    count
}

//! One own line handed on to the shared log.

ghost use Rattle.std.specs.Prelude.{◌≡◌, ◌+◌, ◌^◌, ◌<◌, false, IfOk, IfSome, None, Some, is_some, map, option_and_then, vec_capacity, vec_len};
ghost use Rattle.std.specs.Option.{option_map_or};
ghost use Rattle.hw_model.specs.Problem.{IsTimetable};
ghost use Rattle.hw_model.specs.Timetables.{beats, cargo};
ghost use Rattle.hw_cert_lines.specs.Lines.{clause_of, table_after};
ghost use Rattle.hw_cert_lines.specs.Valid.{LineFits};
ghost use Rattle.hw_cert_lines.specs.Lemmas.{lemma_of};
ghost use Rattle.hw_cert.specs.Logs.{IsWhole};
ghost use Rattle.hw_cert_crews.specs.Pages.{shared_number, renumbered, is_handed, with_clause_number};
ghost use Rattle.hw_turns.specs.Relaying.{Relays, board_after};

use crate::board::Board;
use hw_cert::{Hints, Line, Log, LogStop};
use hw_flat::{Flat, NoMemory, Timetable};
use hw_rules::cargo;
use std::alloc::Global;

// The shared number of an own clause line, 0 where there is none.
fn shared_number(numbers: &[u32], id: u32) -> u32
    ensures { result ≡ shared_number numbers.now id }
{
    if id == 0 {
        return 0;
    }
    match numbers.get(id as usize - 1) {
        Some(number) => *number,
        None => 0,
    }
}

fn shared_numbers(alloc: Global, numbers: &[u32], ids: &Hints) -> Result<Hints, NoMemory>
    ensures value { IfOk result (λ mapped. mapped ≡ map (shared_number numbers.now) ids.now) }
{
    let mut items = Vec::with_capacity(alloc, ids.items.len())?;
    for id in &ids.items {
        items.push(shared_number(numbers, *id))?;
    }
    Ok(Hints { items })
}

/// The line with shared numbers instead of its own.
fn renumbered(alloc: Global, numbers: &[u32], line: &Line) -> Result<Line, NoMemory>
    ensures value { IfOk result (λ next. next ≡ renumbered numbers.now line.now) }
{
    match line {
        Line::Lemma { clause, hints } => {
            let clause = clause.copy(alloc)?;
            let hints = shared_numbers(alloc, numbers, hints)?;
            Ok(Line::Lemma { clause, hints })
        }
        Line::Delete { ids } => {
            let ids = shared_numbers(alloc, numbers, ids)?;
            Ok(Line::Delete { ids })
        }
        Line::Table(_)
        | Line::Explain { .. }
        | Line::Order { .. }
        | Line::Goal { .. }
        | Line::Toll { .. }
        | Line::Tariff { .. }
        | Line::Priced { .. }
        | Line::Bound { .. } => line.copy(alloc),
    }
}

// Whether a timetable's cargo beats the best one's.
fn beats(flat: &Flat, best: &Option<Timetable>, table: &Timetable) -> bool
    requires table { IsTimetable flat.now table.now }
    requires best { IfSome best.now (IsTimetable flat.now) }
    ensures value { result ≡ option_map_or (λ c. beats c (option_and_then (cargo flat.now) best.now)) (cargo flat.now table.now) false }
{
    let Some(worth) = cargo(flat, table) else {
        return false;
    };
    match best {
        None => true,
        Some(best) => match cargo(flat, best) {
            None => true,
            Some(most) => most < worth,
        },
    }
}

// Whether an own line is handed on: a table only where it beats the best of all.
fn goes_on(flat: &Flat, best: &Option<Timetable>, line: &Line) -> bool
    requires fits { LineFits flat.now line.now }
    requires best { IfSome best.now (IsTimetable flat.now) }
    ensures value { result ≡ is_handed flat.now (option_and_then (cargo flat.now) best.now) line.now }
{
    match line {
        Line::Table(table) => beats(flat, best, table),
        Line::Explain { .. }
        | Line::Order { .. }
        | Line::Goal { .. }
        | Line::Lemma { .. }
        | Line::Delete { .. }
        | Line::Toll { .. }
        | Line::Tariff { .. }
        | Line::Priced { .. }
        | Line::Bound { .. } => true,
    }
}

// Whether it is a clause line.
fn has_clause(line: &Line) -> bool
    ensures { result ≡ is_some (clause_of line.now) }
{
    match line {
        Line::Table(_)
        | Line::Delete { .. }
        | Line::Toll { .. }
        | Line::Tariff { .. }
        | Line::Bound { .. } => false,
        Line::Explain { .. }
        | Line::Order { .. }
        | Line::Goal { .. }
        | Line::Lemma { .. }
        | Line::Priced { .. } => true,
    }
}

// Whether it is a lemma's line.
fn is_lemma(line: &Line) -> bool
    ensures { result ≡ is_some (lemma_of line.now) }
{
    match line {
        Line::Lemma { .. } => true,
        Line::Table(_)
        | Line::Explain { .. }
        | Line::Order { .. }
        | Line::Goal { .. }
        | Line::Delete { .. }
        | Line::Toll { .. }
        | Line::Tariff { .. }
        | Line::Priced { .. }
        | Line::Bound { .. } => false,
    }
}

// The timetable of a table's line.
fn table_in(line: Line) -> Option<Timetable>
    ensures { result ≡ table_after None line }
{
    match line {
        Line::Table(table) => Some(table),
        _other => None,
    }
}

// Keeps what a line that was handed on changes.
fn keep(next: Line, numbers: &mut Vec<u32>, board: &mut Board)
    requires room { vec_len numbers.old < vec_capacity numbers.old }
    requires few { board.old.clause_lines + 1 < 2 ^ 32 }
    requires few_lemmas { board.old.lemmas + 1 < 2 ^ 32 }
    ensures numbers { numbers.new.items ≡ with_clause_number numbers.old.items (board.old.clause_lines + 1) (clause_of next) }
    ensures board { board.new ≡ board_after board.old next (Some next) }
{
    if has_clause(&next) {
        board.clause_lines += 1;
        numbers.push_reserved(board.clause_lines);
    }
    if is_lemma(&next) {
        board.lemmas += 1;
    }
    if let Some(table) = table_in(next) {
        board.best = Some(table);
    }
}

/// Hands an own line on, where it is one that is handed on, and keeps the shared number of its clause.
/// The memory for that number is reserved before, so a line that was taken always has its number.
pub fn relay<L: Log>(
    alloc: Global,
    flat: &Flat,
    line: &Line,
    numbers: &mut Vec<u32>,
    board: &mut Board,
    log: &mut L,
) -> Result<(), LogStop>
    requires fits { LineFits flat.now line.now }
    requires best { IfSome board.old.best (IsTimetable flat.now) }
    requires few { board.old.clause_lines + 1 < 2 ^ 32 }
    requires few_lemmas { board.old.lemmas + 1 < 2 ^ 32 }
    requires whole { IsWhole (L.state log.old) }
    ensures relays { Relays flat.now line.now numbers.old.items board.old (L.state log.old) result numbers.new.items board.new (L.state log.new) }
    ensures same_reference { L.anchor log.new ≡ L.anchor log.old }
{
    if !goes_on(flat, &board.best, line) {
        return Ok(());
    }
    if numbers.reserve(1).is_err() {
        return Err(LogStop::NoMemory);
    }
    let Ok(next) = renumbered(alloc, numbers, line) else {
        return Err(LogStop::NoMemory);
    };
    log.line(&next)?;
    keep(next, numbers, board);
    Ok(())
}

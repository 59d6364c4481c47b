//! The same lines with each clause deleted as soon as no later line names it.
//!
//! The lines are taken from the last one back. On the way, the numbers that later lines name are
//! marked, so that each line knows which of its hints no later line names.
ghost use Rattle.std.specs.Prelude.{◌≡◌, ℕ, ◌+◌, ◌^◌, ◌<◌, ◌≤◌, ◌||◌, not, List, ◌∷◌, ◌++◌, [], length, filter, reverse, is_some, All, IfOk, OnOk};
ghost use Rattle.std.specs.List.Sorted.{IsStrictlyIncreasing};
ghost use Rattle.hw_cert_lines.specs.declared.line.Line.{Line};
ghost use Rattle.hw_cert_lines.specs.Lines as counting;
ghost use Rattle.hw_cert_laws.specs.Renewing as renewal;
ghost use Rattle.hw_check.specs.Marks.{Marks, is_among_numbers, due_after, renewed_line};
ghost use Rattle.hw_cert_laws.specs.Renewing.{is_marked};

use crate::refusing::clause_of;
use hw_cert_lines::{Hints, Line};
use hw_model::NoMemory;
use std::alloc::Global;

/// The lines without their deletions, each followed by those that are due: one of its hints that no
/// later line has, and one of its own number if no later line has it. Nothing follows a clause line
/// without literals.
///
/// The lines are moved, and lost if memory runs out. Cost: one pass over the lines and their hints,
/// a bit for each number, and a sort of each line's last-used hints.
pub fn renewed(alloc: Global, lines: Vec<Line>) -> Result<Vec<Line>, NoMemory>
    requires numbered { renewal.IsNumbered lines.items }
    ensures value { IfOk result (λ made. made.items ≡ renewal.renewed lines.items) }
{
    let mut made = renewed_backwards(alloc, lines)?;
    made.reverse();
    Ok(made)
}

/// The renewed lines in reverse order.
fn renewed_backwards(alloc: Global, mut lines: Vec<Line>) -> Result<Vec<Line>, NoMemory>
    requires numbered { renewal.IsNumbered lines.items }
    ensures value { IfOk result (λ made. made.items ≡ reverse (renewal.renewed lines.items)) }
{
    let mut number = clause_count(&lines);
    let mut marked = vec![in alloc; false; number as usize + 1]?;
    let mut made = Vec::new(alloc);
    while let Some(line) = lines.pop() {
        let is_numbered = has_number(&line);
        put_line(alloc, line, number, &mut marked, &mut made)?;
        if is_numbered {
            number -= 1;
        }
    }
    Ok(made)
}

/// How many clause lines there are.
fn clause_count(lines: &[Line]) -> u32
    requires few { counting.clause_count lines.now < 2 ^ 32 }
    ensures value { result ≡ counting.clause_count lines.now }
{
    let mut count = 0;
    for line in lines {
        if has_number(line) {
            count += 1;
        }
    }
    count
}

/// Whether it is a clause line.
fn has_number(line: &Line) -> bool
    ensures value { result ≡ is_some (counting.clause_of line.now) }
{
    clause_of(line).is_some()
}

/// Puts the deletions that follow a line, then the line, and marks its hints. The marks are those
/// of the later lines.
fn put_line(
    alloc: Global,
    line: Line,
    number: u32,
    marked: &mut [bool],
    made: &mut Vec<Line>,
) -> Result<(), NoMemory>
    requires number { number < length marked.old }
    requires hints { All (λ id. id < length marked.old) (renewal.hints_of line) }
    ensures put { (later : List Line) → Marks marked.old later → OnOk result (made.new.items ≡ made.old.items ++ reverse (renewed_line number line later)) }
    ensures marked { (later : List Line) → Marks marked.old later → OnOk result (Marks marked.new (line ∷ later)) }
{
    put_due(alloc, &line, number, marked, made)?;
    mark(hints_of(&line), marked);
    put_itself(line, made)
}

/// Puts the line, unless it is a deletion.
fn put_itself(line: Line, made: &mut Vec<Line>) -> Result<(), NoMemory>
    ensures put { OnOk result (made.new.items ≡ made.old.items ++ renewal.undeleting line) }
{
    if let Line::Delete { .. } = &line {
        return Ok(());
    }
    made.push(line)?;
    Ok(())
}

/// Puts the deletions that follow a line, the last one first.
fn put_due(
    alloc: Global,
    line: &Line,
    number: u32,
    marked: &[bool],
    made: &mut Vec<Line>,
) -> Result<(), NoMemory>
    requires number { number < length marked.now }
    requires hints { All (λ id. id < length marked.now) (renewal.hints_of line.now) }
    ensures put { (later : List Line) → Marks marked.now later → OnOk result (made.new.items ≡ made.old.items ++ reverse (due_after number line.now later)) }
{
    let Some(clause) = clause_of(line) else {
        return Ok(());
    };
    if clause.len() == 0 {
        return Ok(());
    }
    put_deletion(never_named(alloc, number, marked)?, made)?;
    put_deletion(last_named(alloc, line, marked)?, made)
}

/// Puts one deletion of these numbers, if there are any.
fn put_deletion(ids: Vec<u32>, made: &mut Vec<Line>) -> Result<(), NoMemory>
    ensures put { OnOk result (made.new.items ≡ made.old.items ++ renewal.deletion ids.items) }
{
    if ids.is_empty() {
        return Ok(());
    }
    made.push(Line::Delete {
        ids: Hints { items: ids },
    })?;
    Ok(())
}

/// The number, unless it is marked.
fn never_named(alloc: Global, number: u32, marked: &[bool]) -> Result<Vec<u32>, NoMemory>
    requires number { number < length marked.now }
    ensures value { (later : List Line) → Marks marked.now later → IfOk result (λ ids. ids.items ≡ renewal.never_named number later) }
{
    if marked[number as usize] {
        return Ok(Vec::new(alloc));
    }
    Ok(Vec::from_slice(alloc, &[number])?)
}

/// The hints of a line that aren't marked, ascending and each once.
fn last_named(alloc: Global, line: &Line, marked: &[bool]) -> Result<Vec<u32>, NoMemory>
    requires hints { All (λ id. id < length marked.now) (renewal.hints_of line.now) }
    ensures value { (later : List Line) → Marks marked.now later → IfOk result (λ ids. ids.items ≡ renewal.last_named line.now later) }
{
    let mut ids = unmarked(alloc, hints_of(line), marked)?;
    sort_once(&mut ids);
    Ok(ids)
}

/// Brings the numbers into order, each once.
fn sort_once(ids: &mut Vec<u32>)
    ensures ascends { IsStrictlyIncreasing ids.new.items }
    ensures same { (id : ℕ) → is_among_numbers id ids.new.items ≡ is_among_numbers id ids.old.items }
{
    ids.sort_unstable();
    ids.dedup();
}

/// The numbers that aren't marked.
fn unmarked(alloc: Global, ids: &[u32], marked: &[bool]) -> Result<Vec<u32>, NoMemory>
    requires hints { All (λ id. id < length marked.now) ids.now }
    ensures value { IfOk result (λ kept. kept.items ≡ filter (λ id. not (is_marked marked.now id)) ids.now) }
{
    let mut kept = Vec::new(alloc);
    for id in ids {
        if !marked[*id as usize] {
            kept.push(*id)?;
        }
    }
    Ok(kept)
}

/// Marks these numbers.
fn mark(ids: &[u32], marked: &mut [bool])
    requires hints { All (λ id. id < length marked.old) ids.now }
    ensures marked { (id : ℕ) → id < length marked.old → is_marked marked.new id ≡ (is_marked marked.old id || is_among_numbers id ids.now) }
{
    for id in ids {
        marked[*id as usize] = true;
    }
}

/// The numbers that a line names as hints.
fn hints_of(line: &Line) -> &[u32]
    ensures value { result.now ≡ renewal.hints_of line.now }
{
    match line {
        Line::Lemma { hints, .. } => &hints.items,
        _ => &[],
    }
}

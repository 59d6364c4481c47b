//! Which clauses of lines were deleted.

ghost use Rattle.std.specs.Prelude.{◌≡◌, ◌==◌, IfOk, OnOk};
ghost use Rattle.std.specs.List.{list_any};
ghost use Rattle.hw_cert_lines.specs.Lines.{deletes};
ghost use Rattle.hw_cert_closes.specs.Numbers.{MarksDeleted, MarksMore};
ghost use Rattle.hw_cert_laws.specs.Renewing.{is_marked};

use hw_cert_lines::Line;
use hw_flat::NoMemory;
use std::alloc::Global;

/// A mark for each number of a clause, from 0 on: whether a line deletes it. Numbers past the last mark
/// are not deleted.
pub fn deleted(alloc: Global, lines: &[Line]) -> Result<Vec<bool>, NoMemory>
    ensures { IfOk result (λ marks. MarksDeleted lines.now marks.items) }
{
    let mut marks = Vec::new(alloc);
    for line in lines {
        mark_deleted(&mut marks, line)?;
    }
    Ok(marks)
}

/// Marks the numbers that the line deletes.
fn mark_deleted(marks: &mut Vec<bool>, line: &Line) -> Result<(), NoMemory>
    ensures { OnOk result (MarksMore marks.old.items (λ n. deletes n line.now) marks.new.items) }
{
    if let Line::Delete { ids } = line {
        mark_all(marks, &ids.items)?;
    }
    Ok(())
}

fn mark_all(marks: &mut Vec<bool>, ids: &[u32]) -> Result<(), NoMemory>
    ensures { OnOk result (MarksMore marks.old.items (λ n. list_any (λ id. id == n) ids.now) marks.new.items) }
{
    for id in ids {
        mark(marks, *id)?;
    }
    Ok(())
}

/// Marks the number, and makes the list as long as it takes.
fn mark(marks: &mut Vec<bool>, id: u32) -> Result<(), NoMemory>
    ensures { OnOk result (MarksMore marks.old.items (λ n. id == n) marks.new.items) }
{
    let place = id as usize;
    'growing: while marks.len() <= place {
        marks.push(false)?;
    }
    marks[place] = true;
    Ok(())
}

/// Whether the number has such a mark.
pub(crate) fn is_deleted(marks: &[bool], number: u32) -> bool
    ensures { result ≡ is_marked marks.now number }
{
    match marks.get(number as usize) {
        Some(mark) => *mark,
        None => false,
    }
}

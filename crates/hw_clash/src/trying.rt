//! What the others permit when a restriction is left out.

ghost use Rattle.std.specs.Prelude.{◌≡◌, ◌<◌, IfOk, All, IsTrue, ◌↔◌, is_none};
ghost use Rattle.std.specs.List.Sorted.{IsStrictlyIncreasing};
ghost use Rattle.hw_model.specs.Problem.{IsTimetable};
ghost use Rattle.hw_model.specs.Timetables.{first_broken};
ghost use Rattle.hw_clash.specs.Parts.{part};
ghost use Rattle.hw_clash.specs.Clashing.{without_number};
ghost use Rattle.hw_clash.specs.Wished.{wished_count};

use crate::parting::part;
use crate::wished::WishedFlat;
use hw_flat::{Flat, Timetable};
use hw_model::NoMemory;
use hw_rules::broken;
use std::alloc::{AllocError, Global};

/// The list without a number.
pub(crate) fn without(alloc: Global, kept: &[u32], n: u32) -> Result<Vec<u32>, AllocError>
    ensures { IfOk result (λ list. list.items ≡ without_number n kept.now) }
{
    kept.iter().copied().filter(|m| *m != n).collect(alloc)
}

/// The part of the kept restrictions without this one.
pub(crate) fn part_without(
    alloc: Global,
    wished: &WishedFlat,
    kept: &[u32],
    n: u32,
) -> Result<Flat, NoMemory>
    requires numbered { All (λ n. n < wished_count wished.now) kept.now }
    requires ascending { IsStrictlyIncreasing kept.now }
    ensures { IfOk result (λ made. made ≡ part wished.now (without_number n kept.now)) }
{
    let others = without(alloc, kept, n)?;
    part(alloc, wished, &others)
}

/// Whether the kept restrictions without this one permit a timetable.
pub(crate) fn is_met(
    alloc: Global,
    wished: &WishedFlat,
    kept: &[u32],
    n: u32,
    table: &Timetable,
) -> Result<bool, NoMemory>
    requires numbered { All (λ n. n < wished_count wished.now) kept.now }
    requires ascending { IsStrictlyIncreasing kept.now }
    requires listed { IsTimetable wished.now.problem table.now }
    ensures { IfOk result (λ met. met ≡ is_none (first_broken (part wished.now (without_number n kept.now)) table.now)) }
{
    let others = part_without(alloc, wished, kept, n)?;
    let breach = broken(&others, table);
    Ok(breach.is_none())
}

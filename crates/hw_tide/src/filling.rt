//! The rows of a tide, from the heights of a table.

ghost use Rattle.std.specs.Prelude.{◌≡◌, ◌≤◌, ◌<◌, ◌+◌, ◌-◌, ◌*◌, ◌++◌, ℕ, length, drop, All, OnOk, IfOk, Ok, [], ◌∷◌, ℤ};
ghost use Rattle.std.specs.List.{flat_map, range_with_len};
ghost use Rattle.hw_tide.specs.declared.kind.TableKind.TheVariants.{Heights, Waters};
ghost use Rattle.hw_tide.specs.Twelfths.{InLimits};
ghost use Rattle.hw_tide.specs.Levels.{IsLevels};
ghost use Rattle.hw_tide.specs.Table.{TideGives};
ghost use Rattle.hw_tide.specs.Tides.{IsTable, heights_between, heights_in_slot, slot_at, row_count, tide_from};

use crate::fault::TideFault;
use crate::kind::TableKind;
use crate::levels::Levels;
use crate::tide::Tide;
use crate::twelfths::height_between;
use std::alloc::{AllocError, Global};

fn push(heights: &mut Vec<i32>, height: i32) -> Result<(), AllocError>
    ensures { OnOk result (heights.new.items ≡ heights.old.items ++ height ∷ []) }
{
    heights.push(height)?;
    Ok(())
}

/// Appends the heights at `past` slots after a water whose next is `size` slots away, one for
/// each column.
fn push_between(
    heights: &mut Vec<i32>,
    past: u32,
    size: u32,
    lows: &[i32],
    highs: &[i32],
) -> Result<(), AllocError>
    requires inside { past < size }
    requires room { size ≤ 2_047 }
    requires same_length { length lows.now ≡ length highs.now }
    requires lows { All InLimits lows.now }
    requires highs { All InLimits highs.now }
    ensures row { OnOk result (heights.new.items ≡ heights.old.items ++ heights_between past size lows.now highs.now) }
    ensures small { All InLimits heights.old.items → OnOk result (All InLimits heights.new.items) }
{
    for column in 0..lows.len() {
        let height = height_between(lows[column], highs[column], past, size);
        push(heights, height)?;
    }
    Ok(())
}

/// Appends the heights in a slot that isn't before the first water, and is before the second.
fn push_row(
    heights: &mut Vec<i32>,
    columns: u32,
    levels: &[Levels],
    slot: u32,
) -> Result<(), AllocError>
    requires not_before { slot_at levels.now 0 ≤ slot }
    requires before { 1 < length levels.now → slot < slot_at levels.now 1 }
    requires each { All (IsLevels columns) levels.now }
    ensures row { OnOk result (heights.new.items ≡ heights.old.items ++ heights_in_slot levels.now slot) }
    ensures small { All InLimits heights.old.items → OnOk result (All InLimits heights.new.items) }
{
    match levels {
        [] => Ok(()),
        [water] => {
            heights.extend_from_slice(&water.heights)?;
            Ok(())
        }
        [water, next, ..] => {
            let past = slot - water.slot;
            let size = next.slot - water.slot;
            push_between(heights, past, size, &water.heights, &next.heights)
        }
    }
}

/// The place of the last water up to a slot, from a place on.
fn reached(levels: &[Levels], from: usize, slot: u32) -> usize
    requires inside { from < length levels.now }
    requires not_before { slot_at levels.now from ≤ slot }
    ensures inside { result < length levels.now }
    ensures not_before { slot_at levels.now result ≤ slot }
    ensures before { result + 1 < length levels.now → slot < slot_at levels.now (result + 1) }
    ensures same { (later : ℕ) → slot ≤ later → heights_in_slot (drop result levels.now) later ≡ heights_in_slot (drop from levels.now) later }
{
    let mut place = from;
    while place + 1 < levels.len() && slot_of(levels, place + 1) <= slot {
        place += 1;
    }
    place
}

fn slot_of(levels: &[Levels], place: usize) -> u32
    requires { place < length levels.now }
    ensures { result ≡ slot_at levels.now place }
{
    let at = &levels[place];
    at.slot
}

/// The rows of the slots up to the last water.
fn filled(alloc: Global, columns: u32, levels: &[Levels], rows: u32) -> Result<Vec<i32>, AllocError>
    requires table { IsTable Waters columns levels.now }
    ensures rows { IfOk result (λ v. v.items ≡ flat_map (heights_in_slot levels.now) (range_with_len 0 rows)) }
    ensures small { IfOk result (λ v. All InLimits v.items) }
{
    let mut heights = Vec::new(alloc);
    let mut place = 0;
    for slot in 0..rows {
        place = reached(levels, place, slot);
        push_row(&mut heights, columns, &levels[place..], slot)?;
    }
    Ok(heights)
}

/// The heights of a table one after another.
fn joined(alloc: Global, columns: u32, levels: &[Levels]) -> Result<Vec<i32>, AllocError>
    requires each { All (IsLevels columns) levels.now }
    ensures rows { IfOk result (λ v. v.items ≡ flat_map (λ l. l.heights) levels.now) }
    ensures small { IfOk result (λ v. All InLimits v.items) }
{
    let mut heights = Vec::new(alloc);
    for level in levels {
        heights.extend_from_slice(&level.heights)?;
    }
    Ok(heights)
}

fn tide_of_waters(alloc: Global, columns: u32, levels: &[Levels]) -> Result<Tide, TideFault>
    requires table { IsTable Waters columns levels.now }
    ensures tide { TideGives (λ t. t) result (Ok (tide_from Waters columns levels.now)) }
    ensures columns { IfOk result (λ t. t.columns ≡ columns) }
{
    let rows = slot_of(levels, levels.len() - 1) + 1;
    let heights = filled(alloc, columns, levels, rows)?;
    Ok(Tide {
        rows,
        columns,
        heights,
    })
}

fn tide_of_heights(alloc: Global, columns: u32, levels: &[Levels]) -> Result<Tide, TideFault>
    requires table { IsTable Heights columns levels.now }
    ensures tide { TideGives (λ t. t) result (Ok (tide_from Heights columns levels.now)) }
    ensures columns { IfOk result (λ t. t.columns ≡ columns) }
{
    let heights = joined(alloc, columns, levels)?;
    Ok(Tide {
        rows: levels.len() as u32,
        columns,
        heights,
    })
}

/// The tide of a table's heights, with a column for each of this many waypoints.
pub fn tide_of_levels(
    alloc: Global,
    kind: TableKind,
    columns: u32,
    levels: &[Levels],
) -> Result<Tide, TideFault>
    requires table { IsTable kind columns levels.now }
    ensures tide { TideGives (λ t. t) result (Ok (tide_from kind columns levels.now)) }
    ensures columns { IfOk result (λ t. t.columns ≡ columns) }
{
    match kind {
        TableKind::Heights => tide_of_heights(alloc, columns, levels),
        TableKind::Waters => tide_of_waters(alloc, columns, levels),
    }
}

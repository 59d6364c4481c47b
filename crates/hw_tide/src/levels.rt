//! The records of a tide table, one after another.

ghost use Rattle.std.specs.Prelude.{◌≡◌, ◌≤◌, drop, length, MatchOption, None, option_and_then};
ghost use Rattle.csv.specs.Records.{fields_of};
ghost use Rattle.hw_text.specs.Numbers.{number_up_to};
ghost use Rattle.hw_tide.specs.Coming.{IsReading, ReadsComing};
ghost use Rattle.hw_tide.specs.Table.{EndBefore, HasAt, TideGives, slot_fits, fitting, first_field, heights_from, levels_form, levels_from};

use crate::fault::TideFault;
use crate::kind::TableKind;
use crate::records::{Records, next_record};
use csv::ByteRecord;
use hw_text::{read_number, read_signed};
use std::alloc::Global;
use std::marker::Model;

/// The heights at one slot, one for each waypoint. Seen as a record of the same fields.
#[derive(Drop)]
pub struct Levels {
    pub slot: u32,
    pub heights: Vec<i32>,
}

impl Model for Levels {
    ghost use Rattle.hw_tide.specs.Levels.{LevelsParts};

    ghost Value = { LevelsParts };

    ghost view = { λ l. record { slot = l.slot; heights = l.heights.items } };
}

/// The field at a place, if the record has one there.
pub fn field_of(fields: &ByteRecord, place: usize) -> Option<&[u8]>
    ensures { MatchOption result (EndBefore place (fields_of fields.now)) (λ field. HasAt place (fields_of fields.now) field.now) }
{
    fields.get(place)
}

#[tactic(auto, unfolding(crate::specs::Table::heights_from))]
fn heights_of(alloc: Global, row: u64, fields: &ByteRecord) -> Result<Vec<i32>, TideFault>
    requires { length (fields_of fields.now) ≤ 17 }
    ensures { TideGives (λ v. v.items) result (heights_from row 1 (drop 1 (fields_of fields.now))) }
{
    let mut heights = Vec::new(alloc);
    for column in 1..fields.len() {
        let Some(field) = field_of(fields, column) else {
            unreachable!()
        };
        let Some(height) = read_signed(field, 2_000) else {
            return Err(TideFault::Field {
                row,
                column: column as u32,
            });
        };
        heights.push(height)?;
    }
    Ok(heights)
}

fn slot_fits(kind: TableKind, row: u64, last: Option<u32>, slot: u64) -> bool
    requires { 1 ≤ row }
    ensures { result ≡ slot_fits kind row last slot }
{
    match (kind, last) {
        (TableKind::Heights, _) => slot == row - 1,
        (TableKind::Waters, None) => slot == 0,
        (TableKind::Waters, Some(before)) => u64::from(before) < slot,
    }
}

fn first_of(fields: &ByteRecord) -> &[u8]
    ensures { result.now ≡ first_field (drop 0 (fields_of fields.now)) }
{
    match field_of(fields, 0) {
        Some(field) => field,
        None => &[],
    }
}

/// The slot of a record after one with the slot `last`.
fn slot_of(kind: TableKind, row: u64, last: Option<u32>, field: &[u8]) -> Option<u32>
    requires { 1 ≤ row }
    ensures { result ≡ option_and_then (fitting kind row last) (number_up_to 2_047 field.now) }
{
    match read_number(field, 2_047) {
        Some(slot) if slot_fits(kind, row, last, slot) => Some(slot as u32),
        _ => None,
    }
}

/// The heights of a record of this many columns, the slot's included.
#[tactic(auto, unfolding(crate::specs::Table::levels_form))]
fn levels_of(
    alloc: Global,
    kind: TableKind,
    columns: usize,
    row: u64,
    last: Option<u32>,
    fields: &ByteRecord,
) -> Result<Levels, TideFault>
    requires some { 1 ≤ row }
    requires few { columns ≤ 17 }
    ensures { TideGives (λ x. x) result (levels_form kind columns row last (fields_of fields.now)) }
{
    if fields.len() != columns {
        return Err(TideFault::Length { row });
    }
    let Some(slot) = slot_of(kind, row, last, first_of(fields)) else {
        return Err(TideFault::Field { row, column: 0 });
    };
    let heights = heights_of(alloc, row, fields)?;
    Ok(Levels { slot, heights })
}

/// The heights of all records that are still to be read. Each is judged as it is taken, and the
/// first wrong one ends the reading.
pub fn all_levels(
    alloc: Global,
    kind: TableKind,
    columns: usize,
    records: &mut Records<'_>,
) -> Result<Vec<Levels>, TideFault>
    requires few { columns ≤ 17 }
    requires reading { IsReading records.old }
    ensures { ReadsComing (λ v. v.items) records.old (levels_from kind columns 1 None) result }
{
    let mut levels = Vec::new(alloc);
    let mut last = None;
    while let Some(record) = next_record(records)? {
        let row = levels.len() as u64 + 1;
        let one = levels_of(alloc, kind, columns, row, last, &record)?;
        last = Some(one.slot);
        levels.push(one)?;
    }
    Ok(levels)
}

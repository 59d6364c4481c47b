//! A tide table: its header, and the records after it.

ghost use Rattle.std.specs.Prelude.{◌≡◌, ◌≢◌, ◌≤◌, ◌∷◌, length, map, drop, true, ◌+◌, bytes_eq, IfErr};
ghost use Rattle.csv.specs.Records.{fields_of};
ghost use Rattle.hw_tide.specs.Coming.{IsReading, ReadsComing};
ghost use Rattle.hw_tide.specs.Table.{TideGives, kind_word, wrong_column, header_of, not_empty, table_of};

use crate::fault::TideFault;
use crate::kind::TableKind;
use crate::levels::{Levels, all_levels, field_of};
use crate::records::Records;
use csv::ByteRecord;
use hw_port::Waypoint;
use std::alloc::Global;

/// The first of the columns after column 0 that is wrong, missing or extra.
fn wrong_name(waypoints: &[Waypoint], header: &ByteRecord) -> Option<u32>
    requires { length waypoints.now ≤ 16 }
    ensures { result ≡ wrong_column 1 (map (λ w. w.name) waypoints.now) (drop 1 (fields_of header.now)) }
{
    for (i, waypoint) in waypoints.iter().enumerate() {
        let Some(field) = field_of(header, i + 1) else {
            return Some(i as u32 + 1);
        };
        if !is_word(field, &waypoint.name.items) {
            return Some(i as u32 + 1);
        }
    }
    match field_of(header, waypoints.len() + 1) {
        Some(_) => Some(waypoints.len() as u32 + 1),
        None => None,
    }
}

fn is_word(field: &[u8], word: &[u8]) -> bool
    ensures { result ≡ bytes_eq field.now word.now }
{
    let same = field == word;
    same
}

/// Whether a field is the first word of the header.
fn is_kind(kind: TableKind, field: &[u8]) -> bool
    ensures { result ≡ bytes_eq field.now (kind_word kind) }
{
    match kind {
        TableKind::Heights => is_word(field, b"slot"),
        TableKind::Waters => is_word(field, b"water"),
    }
}

fn wrong_of(kind: TableKind, waypoints: &[Waypoint], header: &ByteRecord) -> Option<u32>
    requires { length waypoints.now ≤ 16 }
    ensures { result ≡ wrong_column 0 (kind_word kind ∷ map (λ w. w.name) waypoints.now) (drop 0 (fields_of header.now)) }
{
    match field_of(header, 0) {
        Some(field) if is_kind(kind, field) => wrong_name(waypoints, header),
        _ => Some(0),
    }
}

fn test_header(
    kind: TableKind,
    waypoints: &[Waypoint],
    header: &ByteRecord,
) -> Result<(), TideFault>
    requires { length waypoints.now ≤ 16 }
    ensures tests { TideGives (λ _. true) result (header_of (wrong_column 0 (kind_word kind ∷ map (λ w. w.name) waypoints.now) (drop 0 (fields_of header.now)))) }
    ensures told { IfErr result (λ fault. fault ≢ TideFault.NoMemory) }
{
    match wrong_of(kind, waypoints, header) {
        None => Ok(()),
        Some(column) => Err(TideFault::Header { column }),
    }
}

fn some_levels(levels: Vec<Levels>) -> Result<Vec<Levels>, TideFault>
    ensures tests { TideGives (λ v. v.items) result (not_empty levels.items) }
    ensures told { IfErr result (λ fault. fault ≢ TideFault.NoMemory) }
{
    if levels.is_empty() {
        Err(TideFault::Few)
    } else {
        Ok(levels)
    }
}

/// The heights that a header and the records to come give, of waters or slot by slot.
#[tactic(auto, unfolding(crate::specs::Table::table_of))]
pub fn table(
    alloc: Global,
    kind: TableKind,
    waypoints: &[Waypoint],
    header: &ByteRecord,
    records: &mut Records<'_>,
) -> Result<Vec<Levels>, TideFault>
    requires few { length waypoints.now ≤ 16 }
    requires reading { IsReading records.old }
    ensures { ReadsComing (λ v. v.items) records.old (λ rows. table_of kind (map (λ w. w.name) waypoints.now) (fields_of header.now ∷ rows)) result }
{
    test_header(kind, waypoints, header)?;
    let levels = all_levels(alloc, kind, 1 + waypoints.len(), records)?;
    some_levels(levels)
}

//! Reading a tide table.

ghost use Rattle.std.specs.Prelude.{◌≡◌, ◌∷◌, [], length, IfOk, unwrap_or};
ghost use Rattle.csv.specs.Records.{fields_of};
ghost use Rattle.hw_tide.specs.declared.kind.TableKind.TheVariants.{Heights, Waters};
ghost use Rattle.hw_tide.specs.Tides.{tide_of};
ghost use Rattle.hw_tide.specs.Whole.{TideReads, waypoint_names, kind_said, tide_by_header};

use crate::fault::TideFault;
use crate::filling::tide_of_levels;
use crate::kind::TableKind;
use crate::levels::field_of;
use crate::records::{next_record, records_of};
use crate::table::table;
use crate::tide::Tide;
use csv::ByteRecord;
use hw_port::Port;
use std::alloc::Global;

/// The tide of a table of heights for the port's waypoints, or its first fault.
///
/// The header is `slot` and the waypoints' names. Each record has the next slot, from 0 on, and a
/// height in centimetres for each waypoint. Records are judged one by one, and only the heights of
/// good ones are held.
pub fn read_heights(alloc: Global, bytes: &[u8], port: &Port) -> Result<Tide, TideFault>
    ensures tide { TideReads bytes.now (tide_of Heights (waypoint_names port.now)) result }
    ensures columns { IfOk result (λ t. t.columns ≡ length port.now.waypoints) }
{
    tide(alloc, Some(TableKind::Heights), bytes, port)
}

/// The tide of a table of high and low waters for the port's waypoints, or its first fault.
///
/// The header is `water` and the waypoints' names. The first record has the slot 0 and each other
/// one a later slot than that before; between two waters heights go by the rule of twelfths,
/// rounded down. Records are judged one by one, and only the heights of good ones are held.
pub fn read_waters(alloc: Global, bytes: &[u8], port: &Port) -> Result<Tide, TideFault>
    ensures tide { TideReads bytes.now (tide_of Waters (waypoint_names port.now)) result }
    ensures columns { IfOk result (λ t. t.columns ≡ length port.now.waypoints) }
{
    tide(alloc, Some(TableKind::Waters), bytes, port)
}

/// The tide of a table of waters where the first field of the header is `water`, and of heights
/// otherwise.
pub fn read_tides(alloc: Global, bytes: &[u8], port: &Port) -> Result<Tide, TideFault>
    ensures tide { TideReads bytes.now (tide_by_header (waypoint_names port.now)) result }
    ensures columns { IfOk result (λ t. t.columns ≡ length port.now.waypoints) }
{
    tide(alloc, None, bytes, port)
}

/// The kind that the first field of the header says.
fn kind_of(header: &ByteRecord) -> TableKind
    ensures { result ≡ kind_said (fields_of header.now ∷ []) }
{
    match field_of(header, 0) {
        Some(field) if field == b"water".as_slice() => TableKind::Waters,
        _ => TableKind::Heights,
    }
}

/// The kind that is wanted, or else the one that the header says.
fn kind_or_said(wanted: Option<TableKind>, header: &ByteRecord) -> TableKind
    ensures { result ≡ unwrap_or wanted (kind_said (fields_of header.now ∷ [])) }
{
    match wanted {
        Some(kind) => kind,
        None => kind_of(header),
    }
}

/// The tide of a table of the kind that is wanted, or else of the one that its header says.
#[tactic(auto, unfolding(crate::specs::Tides::tide_of))]
fn tide(
    alloc: Global,
    wanted: Option<TableKind>,
    bytes: &[u8],
    port: &Port,
) -> Result<Tide, TideFault>
    ensures tide { TideReads bytes.now (λ records. tide_of (unwrap_or wanted (kind_said records)) (waypoint_names port.now) records) result }
    ensures columns { IfOk result (λ t. t.columns ≡ length port.now.waypoints) }
{
    let waypoints = &port.parts().waypoints;
    let mut records = records_of(alloc, bytes);
    let Some(header) = next_record(&mut records)? else {
        return Err(TideFault::Header { column: 0 });
    };
    let kind = kind_or_said(wanted, &header);
    let levels = table(alloc, kind, waypoints, &header, &mut records)?;
    tide_of_levels(alloc, kind, waypoints.len() as u32, &levels)
}

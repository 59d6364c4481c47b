//! All high or low waters of a column, named where there is room.

ghost use Rattle.std.specs.Prelude.{◌≡◌, ◌<◌, ◌≤◌};
ghost use Rattle.hw_desk.specs.Writers.{Puts};
ghost use Rattle.hw_chart_waters.specs.Columns.{column_height};
ghost use Rattle.hw_chart_waters.specs.Labels.{free_after_some, label_of_some, waters_text};
ghost use Rattle.hw_chart_waters.specs.Stands.{stand_at as stand_in};

use crate::column::Column;
use crate::label::put_where_free;
use crate::stand::{WaterKind, stand_at};
use hw_desk::Writer;
use hw_model::Slot;

/// Puts the label of the water that begins in a row, if one does and the line is free for it, and says from where it is free then.
fn put_water_at<W: Writer>(
    out: &mut W,
    column: &Column,
    kind: WaterKind,
    y: u64,
    row: Slot,
    free: u64,
) -> u64
    requires row { row < column.now.rows }
    requires free { free ≤ 2_000 }
    ensures puts { Puts (label_of_some column.now y free (stand_in kind (column_height column.now) column.now.rows row)) (W.state out.old) (W.state out.new) }
    ensures value { result ≡ free_after_some column.now free (stand_in kind (column_height column.now) column.now.rows row) }
    ensures few { result ≤ 2_000 }
{
    match stand_at(column, kind, row) {
        Some(stand) => put_where_free(out, column, stand, y, free),
        None => {
            out.put(b"");
            free
        }
    }
}

/// Puts the times and heights of all high or all low waters into a line of text at y, from left to right, as far as there is room.
///
/// It takes time in proportion to the rows.
pub fn put_waters<W: Writer>(out: &mut W, column: &Column, kind: WaterKind, y: u64)
    ensures { Puts (waters_text column.now kind y) (W.state out.old) (W.state out.new) }
{
    let rows = column.rows();
    let mut free = 172;
    for row in 0..rows {
        free = put_water_at(out, column, kind, y, row, free);
    }
}

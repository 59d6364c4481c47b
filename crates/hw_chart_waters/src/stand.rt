//! The rows in which the water stands before it turns.

ghost use Rattle.std.specs.Prelude.{◌≡◌, ◌<◌, ◌≤◌, ◌-◌, ◌&&◌, nat_lt, IsTrue, IfSome};
ghost use Rattle.std.specs.Ordering.{int_eq};
ghost use Rattle.hw_chart_waters.specs.Columns.{column_height};
ghost use Rattle.hw_chart_waters.specs.Stands.{TurnsInside, is_beyond, stand_at as stand_in, stand_begins, stand_end, stand_from as stand_since, stand_turns};

use crate::column::Column;
use hw_model::Slot;

/// A high water or a low one.
#[derive(Clone, Copy)]
pub enum WaterKind {
    High,
    Low,
}

/// Rows in which the water stands: from the first to before the end.
#[derive(Clone, Copy)]
pub struct Stand {
    pub first: Slot,
    pub end: Slot,
}

/// Whether a height is above another at a high water, below it at a low one.
fn is_beyond(kind: WaterKind, height: i32, other: i32) -> bool
    ensures { result ≡ is_beyond kind height other }
{
    match kind {
        WaterKind::High => height > other,
        WaterKind::Low => height < other,
    }
}

/// Whether a row is shown and has this height.
#[tactic(auto, using(crate::proofs::Onward::level_inside))]
fn is_level(column: &Column, level: i32, row: Slot) -> bool
    ensures value { result ≡ nat_lt row column.now.rows && int_eq (column_height column.now row) level }
    ensures inside { IsTrue result → row < column.now.rows }
{
    row < column.rows() && column.height(row) == level
}

/// Where the rows of this height end that follow one another from a row on.
#[tactic(auto, using(crate::proofs::Onward::stand_goes, crate::proofs::Onward::stand_stops))]
fn end_of_stand(column: &Column, level: i32, row: Slot) -> Slot
    requires { row ≤ column.now.rows }
    ensures value { result ≡ stand_end (column_height column.now) level row (column.now.rows - row) }
    ensures inside { result ≤ column.now.rows }
    ensures onward { row ≤ result }
{
    let _few = column.rows();
    if is_level(column, level, row) {
        end_of_stand(column, level, row + 1)
    } else {
        row
    }
}

/// Whether the height of a row lies beyond that of the row before it.
fn does_begin(column: &Column, kind: WaterKind, row: Slot) -> bool
    requires { row < column.now.rows }
    ensures value { result ≡ stand_begins kind (column_height column.now) row }
    ensures after { IsTrue result → 0 < row }
{
    row > 0 && is_beyond(kind, column.height(row), column.height(row - 1))
}

/// Whether the height of a row lies beyond that of another one, which is shown.
fn does_turn(column: &Column, kind: WaterKind, row: Slot, end: Slot) -> bool
    requires { row < column.now.rows }
    ensures value { result ≡ stand_turns kind (column_height column.now) column.now.rows row end }
    ensures inside { IsTrue result → end < column.now.rows }
{
    end < column.rows() && is_beyond(kind, column.height(row), column.height(end))
}

/// The stand from a row on, if the water turns after it.
fn stand_from(column: &Column, kind: WaterKind, row: Slot) -> Option<Stand>
    requires row { row < column.now.rows }
    requires after { 0 < row }
    ensures value { result ≡ stand_since kind (column_height column.now) column.now.rows row }
    ensures within { IfSome result (TurnsInside column.now.rows) }
{
    let end = end_of_stand(column, column.height(row), row);
    if does_turn(column, kind, row, end) {
        Some(Stand { first: row, end })
    } else {
        None
    }
}

/// The high or low water that begins in a row, if one does.
pub fn stand_at(column: &Column, kind: WaterKind, row: Slot) -> Option<Stand>
    requires { row < column.now.rows }
    ensures value { result ≡ stand_in kind (column_height column.now) column.now.rows row }
    ensures within { IfSome result (TurnsInside column.now.rows) }
{
    if does_begin(column, kind, row) {
        stand_from(column, kind, row)
    } else {
        None
    }
}

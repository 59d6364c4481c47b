//! The rows of a picture, one after another.

ghost use Rattle.std.specs.Prelude.{◌≡◌, ◌≤◌, ◌<◌, ℕ, Some, false, length, slice_index_or};
ghost use Rattle.hw_model.specs.Problem.{IsTimetable, horizon};
ghost use Rattle.hw_desk.specs.Writers.{Puts};
ghost use Rattle.hw_chart.specs.Courses.{SailsBefore};
ghost use Rattle.hw_chart.specs.Figures.{is_top_touched};
ghost use Rattle.hw_chart_flat.specs.Fleets.{picture_span};
ghost use Rattle.hw_chart_flat.specs.Moves.{IsPlan, flag_place, move_is_open, flat_open_level};
ghost use Rattle.hw_chart_flat.specs.Rows.{course_parts, nowhere_text, planned_row, planned_row_text, planned_rows, unplanned_row, unplanned_row_text, unplanned_rows};

use crate::bars::put_bars;
use crate::labels::put_figures;
use crate::plan::Plan;
use crate::row::{Row, put_row_begin, row_y};
use crate::values::sails_nowhere;
use hw_chart::{
    Course, course_at, put_moves_window, put_no_slot, put_pin, put_stays, rank, touches_top,
};
use hw_chart_svg::{Levels, put_group_end};
use hw_desk::Writer;
use hw_flat::{Flat, Timetable};
use hw_model::{MOST_SHIPS, ShipId};

/// The slots to which a ship alone could move.
#[derive(Drop)]
struct Openings<'o> {
    flat: &'o Flat,
    plan: &'o Plan,
    ship: ShipId,
    ghost each_flag: { length plan.now.flags ≡ 20_480 },
    ghost flagged: { (slot : ℕ) → slot < horizon flat.now → slice_index_or plan.now.flags (flag_place ship slot) false ≡ move_is_open flat.now plan.now.table ship slot },
    ghost ship_in: { ship < flat.now.ships },
}

impl Levels for Openings<'_> {
    ghost level = { λ o slot. flat_open_level o.flat.now o.plan.now.table o.ship slot };

    ghost end = { λ o. horizon o.flat.now };

    fn level(&self, slot: u32) -> u64 {
        let _horizon = self.flat.horizon();
        if self.plan.is_move(self.ship, slot) {
            0
        } else {
            1
        }
    }
}

/// Puts what a row says of the ship's course: the pin, bars and figures of a sailing, or that it stays.
#[tactic(auto, unfolding(crate::specs::Rows::course_parts))]
fn put_course_parts<W: Writer>(out: &mut W, flat: &Flat, table: &Timetable, row: Row)
    requires listed { IsTimetable flat.now table.now }
    requires ship_in { row.ship < flat.now.ships }
    requires few { row.rank ≤ MOST_SHIPS }
    requires some { 0 < row.span }
    requires before { SailsBefore (horizon flat.now) row.course }
    ensures { Puts (course_parts flat.now table.now row row.course) (W.state out.old) (W.state out.new) }
{
    match row.course {
        Course::Unplanned => out.put(b""),
        Course::Stays => put_stays(out, row_y(row)),
        Course::Sails(slot) => {
            put_pin(out, b"ou", slot, row.span, row_y(row));
            put_bars(out, flat, table, row, slot);
            put_figures(out, flat, row, slot);
        }
    }
}

/// Whether there is a slot to which a ship alone could move.
pub(crate) fn could_move(flat: &Flat, plan: &Plan, ship: ShipId) -> bool
    requires planned { IsPlan flat.now plan.now }
    requires ship_in { ship < flat.now.ships }
    ensures { result ≡ is_top_touched (flat_open_level flat.now plan.now.table ship) (horizon flat.now) }
{
    let openings = Openings { flat, plan, ship };
    touches_top(&openings, flat.horizon())
}

/// Puts the row of a ship in a timetable, with the slots to which the ship alone could move.
#[tactic(auto, unfolding(crate::specs::Rows::planned_row_text))]
fn put_planned_row<W: Writer>(out: &mut W, flat: &Flat, plan: &Plan, row: Row)
    requires planned { IsPlan flat.now plan.now }
    requires ship_in { row.ship < flat.now.ships }
    requires few { row.rank ≤ MOST_SHIPS }
    requires some { 0 < row.span }
    requires before { SailsBefore (horizon flat.now) row.course }
    ensures { Puts (planned_row_text flat.now plan.now.table row) (W.state out.old) (W.state out.new) }
{
    put_row_begin(out, flat, row);
    let ship = row.ship;
    let openings = Openings { flat, plan, ship };
    put_moves_window(out, row_y(row), row.span, &openings, flat.horizon());
    put_course_parts(out, flat, plan.table(), row);
    put_group_end(out);
}

/// The row of a ship in a timetable, where a picture shows this many slots.
fn planned_row(flat: &Flat, table: &Timetable, span: u32, ship: ShipId) -> Row
    requires listed { IsTimetable flat.now table.now }
    requires ship_in { ship < flat.now.ships }
    requires span { span ≡ picture_span flat.now (Some table.now) }
    ensures value { result ≡ planned_row flat.now table.now ship }
    ensures few { result.rank ≤ MOST_SHIPS }
    ensures before { SailsBefore (horizon flat.now) result.course }
{
    let _few = table.len();
    Row {
        ship,
        rank: rank(table.as_slice(), ship) as u32,
        span,
        course: course_at(Some(table.slot(ship)), flat.horizon()),
    }
}

/// Puts the rows of a timetable, in the order of the ships.
pub(crate) fn put_planned_rows<W: Writer>(out: &mut W, flat: &Flat, plan: &Plan, span: u32)
    requires planned { IsPlan flat.now plan.now }
    requires span { span ≡ picture_span flat.now (Some plan.now.table) }
    requires some { 0 < span }
    ensures { Puts (planned_rows flat.now plan.now.table 0 flat.now.ships) (W.state out.old) (W.state out.new) }
{
    for ship in 0..flat.shape().ships {
        put_planned_row(out, flat, plan, planned_row(flat, plan.table(), span, ship));
    }
}

/// Puts that a ship has no slot, where it has no value in any.
fn put_nowhere<W: Writer>(out: &mut W, flat: &Flat, row: Row)
    requires ship_in { row.ship < flat.now.ships }
    requires few { row.rank ≤ MOST_SHIPS }
    ensures { Puts (nowhere_text flat.now row) (W.state out.old) (W.state out.new) }
{
    if sails_nowhere(flat, row.ship) {
        put_no_slot(out, row_y(row));
    } else {
        out.put(b"");
    }
}

/// Puts the row of a ship where there is no timetable.
#[tactic(auto, unfolding(crate::specs::Rows::unplanned_row_text))]
fn put_unplanned_row<W: Writer>(out: &mut W, flat: &Flat, ship: ShipId)
    requires { ship < flat.now.ships }
    ensures { Puts (unplanned_row_text flat.now (unplanned_row flat.now ship)) (W.state out.old) (W.state out.new) }
{
    let row = Row {
        ship,
        rank: ship,
        span: flat.horizon(),
        course: Course::Unplanned,
    };
    put_row_begin(out, flat, row);
    put_nowhere(out, flat, row);
    put_group_end(out);
}

/// Puts the rows where there is no timetable.
pub(crate) fn put_unplanned_rows<W: Writer>(out: &mut W, flat: &Flat)
    ensures { Puts (unplanned_rows flat.now 0 flat.now.ships) (W.state out.old) (W.state out.new) }
{
    for ship in 0..flat.shape().ships {
        put_unplanned_row(out, flat, ship);
    }
}

//! The marks of all ships.

ghost use Rattle.std.specs.Prelude.{◌≡◌, ◌≤◌, ◌<◌, ◌+◌, IfSome, length, option_map};
ghost use Rattle.hw_desk.specs.Writers.{Puts};
ghost use Rattle.hw_model.specs.Problem.{IsTimetable};
ghost use Rattle.hw_chart.specs.Courses.{slot_in};
ghost use Rattle.hw_chart.specs.Layout.{rank_in};
ghost use Rattle.hw_chart_repair.specs.Sheets.{mark_for_wish, marked_end, wish_marks_from, slot_by, spot_of};

use crate::mark::{Spot, put_mark};
use hw_chart::{Scale, rank};
use hw_chart_svg::put_svg_end;
use hw_desk::Writer;
use hw_flat::{Flat, Timetable};
use hw_model::{MOST_SHIPS, ShipId, Slot};
use hw_repair::Wish;
use hw_repair_text::wished;

/// How far down the rows of a picture begin, how many slots it shows, what its axis counts, and from midnight to the beginning
/// of slot 0 the minutes, where that has a date, and otherwise 0.
#[derive(Clone, Copy)]
pub struct Sheet {
    pub rows: u32,
    pub span: u32,
    pub scale: Scale,
    pub midnight: u32,
}

/// The place of a ship's row among all rows.
#[tactic(auto, using(hw_chart::proofs::Ranks::rank_small))]
fn rank_of(table: Option<&Timetable>, ship: ShipId) -> u32
    requires listed { IfSome table (λ t. ship < length t.now) }
    requires ship_in { ship < MOST_SHIPS }
    ensures value { result ≡ rank_in (option_map (λ t. t.now) table.entry) ship }
    ensures few { result ≤ MOST_SHIPS }
{
    match table {
        Some(table) => {
            let _few = table.len();
            rank(table.as_slice(), ship) as u32
        }
        None => ship,
    }
}

/// Where a ship's marks stand.
fn spot_of(sheet: Sheet, table: Option<&Timetable>, ship: ShipId) -> Spot
    requires listed { IfSome table (λ t. ship < length t.now) }
    requires ship_in { ship < MOST_SHIPS }
    requires rows { sheet.rows ≤ 1_298 }
    ensures { result ≡ spot_of sheet (option_map (λ t. t.now) table.entry) ship }
{
    Spot {
        ship,
        y: sheet.rows + 42 * rank_of(table, ship),
        span: sheet.span,
        scale: sheet.scale,
        midnight: sheet.midnight,
    }
}

/// The slot that a timetable gives a ship, if there is one.
fn slot_in(table: Option<&Timetable>, ship: ShipId) -> Option<Slot>
    ensures { result ≡ slot_in (option_map (λ t. t.now) table.entry) ship }
{
    let table = table?;
    table.as_slice().get(ship as usize).copied()
}

/// The slot of a ship, or where there is no timetable that of its wish.
pub fn slot_by(table: Option<&Timetable>, ship: ShipId, wish: Wish) -> Slot
    ensures { result ≡ slot_by (option_map (λ t. t.now) table.entry) ship wish }
{
    slot_in(table, ship).unwrap_or(wished(wish))
}

/// Puts the marks of a ship.
#[tactic(auto, unfolding(crate::specs::Sheets::mark_for_wish))]
fn put_mark_of<W: Writer>(
    out: &mut W,
    flat: &Flat,
    sheet: Sheet,
    table: Option<&Timetable>,
    ship: ShipId,
    wish: Wish,
)
    requires listed { IfSome table (λ t. ship < length t.now) }
    requires ship_in { ship < MOST_SHIPS }
    requires rows { sheet.rows ≤ 1_298 }
    requires some { 0 < sheet.span }
    ensures { Puts (mark_for_wish flat.now sheet (option_map (λ t. t.now) table.entry) ship wish) (W.state out.old) (W.state out.new) }
{
    let spot = spot_of(sheet, table, ship);
    let slot = slot_by(table, ship, wish);
    put_mark(out, flat, spot, wish, slot);
}

/// Puts the marks of the ships from a number on.
fn put_marks<W: Writer>(
    out: &mut W,
    flat: &Flat,
    sheet: Sheet,
    table: Option<&Timetable>,
    ship: ShipId,
    wishes: &[Wish],
)
    requires listed { IfSome table (λ t. ship + length wishes.now ≤ length t.now) }
    requires ships { ship + length wishes.now ≤ MOST_SHIPS }
    requires rows { sheet.rows ≤ 1_298 }
    requires some { 0 < sheet.span }
    ensures { Puts (wish_marks_from flat.now sheet (option_map (λ t. t.now) table.entry) ship wishes.now) (W.state out.old) (W.state out.new) }
{
    if let [wish, more @ ..] = wishes {
        put_mark_of(out, flat, sheet, table, ship, *wish);
        put_marks(out, flat, sheet, table, ship + 1, more);
    }
}

/// Puts the marks of all ships, and the end of the picture.
#[tactic(auto, unfolding(crate::specs::Sheets::marked_end))]
pub fn put_marked_end<W: Writer>(
    out: &mut W,
    flat: &Flat,
    sheet: Sheet,
    table: Option<&Timetable>,
    wishes: &[Wish],
)
    requires each { length wishes.now ≡ flat.now.ships }
    requires listed { IfSome table (λ t. IsTimetable flat.now t.now) }
    requires rows { sheet.rows ≤ 1_298 }
    requires some { 0 < sheet.span }
    ensures { Puts (marked_end flat.now sheet (option_map (λ t. t.now) table.entry) wishes.now) (W.state out.old) (W.state out.new) }
{
    let _shape = flat.shape();
    put_marks(out, flat, sheet, table, 0, wishes);
    put_svg_end(out);
}

//! The texts of a flat problem's programme.

ghost use Rattle.std.specs.Prelude.{◌≡◌, ◌*◌, [], true, false};
ghost use Rattle.hw_desk.specs.Writers.{Puts};
ghost use Rattle.hw_flat_programme.specs.declared.format.Format.{Format};
ghost use Rattle.hw_flat_programme.specs.Rows.{most_from, ships_terms};
ghost use Rattle.hw_flat_programme.specs.Texts.{lp_text, opb_head, opb_notes, opb_text, with_a_term, sum_text};

use crate::counting::count_rows;
use crate::format::{Format, Sense, mark_of};
use crate::rows::put_rows;
use crate::span::span_weight;
use crate::terms::{most, put_names, put_no_terms, put_ships};
use crate::windows::whole_span;
use hw_desk::Writer;
use hw_flat::Flat;

/// Whether no ship has a value in any slot.
fn is_empty(flat: &Flat) -> bool
    ensures empty { (format : Format) → result ≡ true → ships_terms format flat.now 0 flat.now.ships ≡ [] }
    ensures some { (format : Format) → result ≡ false → with_a_term (ships_terms format flat.now 0 flat.now.ships) ≡ ships_terms format flat.now 0 flat.now.ships }
{
    for ship in 0..flat.shape().ships {
        if span_weight(flat, whole_span(flat, ship)) != 0 {
            return false;
        }
    }
    true
}

/// Puts the objective.
fn put_objective<W: Writer>(out: &mut W, flat: &Flat, format: Format)
    ensures { Puts (sum_text format flat.now.slots (with_a_term (ships_terms format flat.now 0 flat.now.ships))) (W.state out.old) (W.state out.new) }
{
    if is_empty(flat) {
        put_no_terms(out, flat, mark_of(format, Sense::Exactly));
    } else {
        put_ships(out, flat, format);
    }
}

/// Puts the problem in the LP format: maximise the cargo, in tenths of a tonne.
///
/// The variable of a ship and a slot is `x_SHIP_SLOT`. There is a row for each ship; for each hole of a pair at most
/// 1,535 rows, one for each window, with the windows of other ships that are kept apart from it; for each precedence one
/// for each slot; and for a rule on tugs one for each slot in which ships sail. Rows that all points satisfy are left
/// out. A row has at most 20,520 terms, a line each.
pub fn put_model<W: Writer>(out: &mut W, flat: &Flat)
    ensures { Puts (lp_text flat.now) (W.state out.old) (W.state out.new) }
{
    out.put(b"Maximize\n cargo:\n");
    put_objective(out, flat, Format::Lp);
    out.put(b"Subject To\n");
    put_rows(out, flat, Format::Lp);
    out.put(b"Binary\n");
    put_names(out, flat);
    out.put(b"End\n");
}

/// How many numbers variables have.
fn variables(flat: &Flat) -> u32
    ensures { result ≡ flat.now.ships * flat.now.slots }
{
    let shape = flat.shape();
    shape.ships * shape.slots
}

/// The most that all ships may carry, added up.
fn most_of_all(flat: &Flat) -> u64
    ensures { result ≡ most_from flat.now 0 flat.now.ships }
{
    let mut sum = 0;
    for ship in 0..flat.shape().ships {
        sum += most(flat, ship);
    }
    sum
}

/// Puts the first line of the OPB format.
#[tactic(auto, unfolding(crate::specs::Texts::opb_head))]
fn put_head<W: Writer>(out: &mut W, variables: u32, rows: u32)
    ensures { Puts (opb_head variables rows) (W.state out.old) (W.state out.new) }
{
    out.put(b"* #variable= ");
    out.put_number(u64::from(variables));
    out.put(b" #constraint= ");
    out.put_number(u64::from(rows));
    out.put(b"\n");
}

/// Puts which variable has which number, and from what the least sum is taken.
#[tactic(auto, unfolding(crate::specs::Texts::opb_notes))]
fn put_notes<W: Writer>(out: &mut W, slots: u32, top: u64)
    ensures { Puts (opb_notes slots top) (W.state out.old) (W.state out.new) }
{
    out.put(b"* ship V has slot K: x(V * ");
    out.put_number(u64::from(slots));
    out.put(b" + K + 1)\n* cargo: ");
    out.put_number(top);
    out.put(b" less this sum\n");
}

/// Puts the problem in the OPB format, with the rows of `put_model`. That format has least sums alone, so what is made
/// least is what the cargo lacks of the most that all ships may carry.
pub fn put_opb<W: Writer>(out: &mut W, flat: &Flat)
    ensures { Puts (opb_text flat.now) (W.state out.old) (W.state out.new) }
{
    put_head(out, variables(flat), count_rows(flat));
    put_notes(out, flat.shape().slots, most_of_all(flat));
    out.put(b"min: ");
    put_objective(out, flat, Format::Opb);
    out.put(b";\n");
    put_rows(out, flat, Format::Opb);
}

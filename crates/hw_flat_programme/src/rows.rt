//! Putting the rows of a programme.

ghost use Rattle.std.specs.Prelude.{◌≡◌, ◌<◌, ◌≤◌, ◌+◌, ◌-◌, All, map, length};
ghost use Rattle.hw_model.specs.Limits.{HoleFits, RuleFits, TugsFit};
ghost use Rattle.hw_model.specs.Problem.{horizon};
ghost use Rattle.hw_model.specs.declared.limits.TheConstants.{MOST_SHIPS, MOST_SLOTS};
ghost use Rattle.hw_desk.specs.Writers.{Puts};
ghost use Rattle.hw_flat_programme.specs.Rows.{IsWindow, SpanFits, after_rows, row_at_most, grown, hole_rows, job_span, rows_of, rule_rows, rules_rows, ship_row, ship_rows, span_terms, tug_rows, whole_span, width, window_rows};
ghost use Rattle.hw_flat_programme.specs.Texts.{linear_row_text, rows_text, with_a_term, terms_text};

use crate::apart::{Apart, HoleTable};
use crate::format::{Format, Mark, Sense, mark_of, put_row_end};
use crate::groups::grown;
use crate::limits::MOST_SPANS;
use crate::span::{Span, span_weight, weight};
use crate::spans::Spans;
use crate::terms::{put_no_terms, put_span, put_spans};
use crate::windows::{after_spans, job_spans, whole_span, width, window_spans};
use hw_desk::Writer;
use hw_flat::Flat;
use hw_model::{Hole, Job, Rule, ShipId, Step};
use hw_rules::Fleet;

/// Puts the row that a weight in some spans is at most a bound, unless all of them together are.
fn put_at_most<W: Writer>(out: &mut W, flat: &Flat, format: Format, bound: u32, spans: &[Span])
    requires fit { All (SpanFits flat.now) spans.now }
    requires few { length spans.now ≤ MOST_SPANS }
    ensures { Puts (rows_text format flat.now.slots (row_at_most flat.now bound spans.now)) (W.state out.old) (W.state out.new) }
{
    if bound < weight(flat, spans) {
        put_spans(out, flat, mark_of(format, Sense::AtMost), spans);
        put_row_end(out, format, Sense::AtMost, bound);
    } else {
        out.put(b"");
    }
}

/// Puts the terms of a ship's row.
fn put_ship_terms<W: Writer>(out: &mut W, flat: &Flat, mark: Mark, ship: ShipId)
    requires ship_in { ship < flat.now.ships }
    ensures { Puts (terms_text flat.now.slots mark (with_a_term (span_terms flat.now (whole_span flat.now ship)))) (W.state out.old) (W.state out.new) }
{
    let span = whole_span(flat, ship);
    if span_weight(flat, span) == 0 {
        put_no_terms(out, flat, mark);
    } else {
        put_span(out, flat, mark, span);
    }
}

/// Puts the row of a ship.
fn put_ship_row<W: Writer>(out: &mut W, flat: &Flat, format: Format, ship: ShipId)
    requires ship_in { ship < flat.now.ships }
    ensures { Puts (linear_row_text format flat.now.slots (ship_row flat.now ship)) (W.state out.old) (W.state out.new) }
{
    put_ship_terms(out, flat, mark_of(format, Sense::Exactly), ship);
    put_row_end(out, format, Sense::Exactly, 1);
}

/// Puts the rows of the ships.
fn put_ship_rows<W: Writer>(out: &mut W, flat: &Flat, format: Format)
    ensures { Puts (rows_text format flat.now.slots (ship_rows flat.now 0 flat.now.ships)) (W.state out.old) (W.state out.new) }
{
    for ship in 0..flat.shape().ships {
        put_ship_row(out, flat, format, ship);
    }
}

/// Puts the row of two windows, grown to a group.
#[tactic(auto, using(crate::proofs::Grouped::windows_fit))]
fn put_group<W: Writer>(out: &mut W, apart: &Apart, format: Format, two: Spans)
    requires windows { All (IsWindow apart.now) two }
    requires few { length two ≤ 2 }
    ensures { Puts (rows_text format apart.now.slots (row_at_most apart.now 1 (grown apart.now two))) (W.state out.old) (W.state out.new) }
{
    let flat = apart.flat();
    let _limits = flat.shape();
    put_at_most(out, flat, format, 1, grown(apart, two).as_slice());
}

/// Puts the rows of a hole.
fn put_hole<W: Writer>(out: &mut W, apart: &Apart, format: Format, v: ShipId, w: ShipId, hole: Hole)
    requires fits { HoleFits hole }
    requires first_in { v < apart.now.ships }
    requires second_in { w < apart.now.ships }
    ensures { Puts (rows_text format apart.now.slots (window_rows apart.now v w hole)) (W.state out.old) (W.state out.new) }
{
    let flat = apart.flat();
    for last in 0..flat.horizon() + width(hole) - 1 {
        put_group(out, apart, format, window_spans(flat, v, w, hole, last));
    }
}

/// Puts the rows of some holes.
fn put_holes<W: Writer>(
    out: &mut W,
    apart: &Apart,
    format: Format,
    v: ShipId,
    w: ShipId,
    holes: &[Hole],
)
    requires fit { All HoleFits holes.now }
    requires first_in { v < apart.now.ships }
    requires second_in { w < apart.now.ships }
    ensures { Puts (rows_text format apart.now.slots (hole_rows apart.now v w holes.now)) (W.state out.old) (W.state out.new) }
{
    for hole in holes {
        put_hole(out, apart, format, v, w, *hole);
    }
}

/// Puts the rows of a precedence.
fn put_after<W: Writer>(out: &mut W, flat: &Flat, format: Format, v: ShipId, w: ShipId, gap: u32)
    requires short { gap ≤ MOST_SLOTS }
    requires first_in { v < flat.now.ships }
    requires second_in { w < flat.now.ships }
    ensures { Puts (rows_text format flat.now.slots (after_rows flat.now v w gap)) (W.state out.old) (W.state out.new) }
{
    for slot in 0..flat.shape().slots {
        put_at_most(out, flat, format, 1, &after_spans(flat, v, w, gap, slot));
    }
}

/// Puts the rows of a rule on tugs.
fn put_tugs<W: Writer>(
    out: &mut W,
    flat: &Flat,
    format: Format,
    fleet: u32,
    later: &[Step],
    jobs: &[Job],
)
    requires { TugsFit flat.now.ships fleet later.now jobs.now }
    ensures { Puts (rows_text format flat.now.slots (tug_rows flat.now fleet later.now jobs.now)) (W.state out.old) (W.state out.new) }
{
    let mut tugs = Fleet::new(fleet, later);
    for slot in 0..flat.horizon() {
        let bound = tugs.tugs_in(slot);
        put_at_most(out, flat, format, bound, job_spans(jobs, slot).as_slice());
    }
}

/// Puts the rows of a rule.
fn put_rule<W: Writer>(out: &mut W, apart: &Apart, format: Format, rule: &Rule)
    requires { RuleFits apart.now.ships rule.now }
    ensures { Puts (rows_text format apart.now.slots (rule_rows apart.now rule.now)) (W.state out.old) (W.state out.new) }
{
    match rule {
        Rule::Pair { v, w, holes } => put_holes(out, apart, format, *v, *w, &holes.items),
        Rule::After { v, w, gap } => put_after(out, apart.flat(), format, *v, *w, *gap),
        Rule::Tugs { fleet, later, jobs } => put_tugs(
            out,
            apart.flat(),
            format,
            *fleet,
            &later.items,
            &jobs.items,
        ),
    }
}

/// Puts the rows of some rules.
fn put_rules<W: Writer>(out: &mut W, apart: &Apart, format: Format, rules: &[Rule])
    requires { All (RuleFits apart.now.ships) rules.now }
    ensures { Puts (rows_text format apart.now.slots (rules_rows apart.now rules.now)) (W.state out.old) (W.state out.new) }
{
    for rule in rules {
        put_rule(out, apart, format, rule);
    }
}

/// Puts all rows.
pub(crate) fn put_rows<W: Writer>(out: &mut W, flat: &Flat, format: Format)
    ensures { Puts (rows_text format flat.now.slots (rows_of flat.now)) (W.state out.old) (W.state out.new) }
{
    put_ship_rows(out, flat, format);
    let table = HoleTable::new(flat);
    let apart = Apart::new(flat, &table);
    put_rules(out, &apart, format, flat.rules());
}

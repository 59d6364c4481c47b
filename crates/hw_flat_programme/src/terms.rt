//! Putting the terms of rows and of the objective.

ghost use Rattle.std.specs.Prelude.{◌≡◌, ◌<◌, ◌≤◌, [], All};
ghost use Rattle.hw_model.specs.Problem.{value_at};
ghost use Rattle.hw_desk.specs.Writers.{Puts};
ghost use Rattle.hw_flat_programme.specs.Rows.{SpanFits, counts, most, ships_terms, span_terms, term_at, terms_of, value_term, value_terms};
ghost use Rattle.hw_flat_programme.specs.Texts.{variables_text, with_a_term, sum_text, term_text, terms_text};

use crate::format::{Format, Mark, Sense, mark_of, put_name, put_number};
use crate::span::Span;
use hw_desk::Writer;
use hw_flat::Flat;
use hw_model::{MOST_VALUE, ShipId, Slot};
use hw_rules::greatest_value;

/// Puts a term.
pub(crate) fn put_term<W: Writer>(
    out: &mut W,
    flat: &Flat,
    mark: Mark,
    weight: u64,
    ship: ShipId,
    slot: Slot,
)
    requires ship_in { ship < flat.now.ships }
    requires slot_in { slot < flat.now.slots }
    ensures { Puts (term_text flat.now.slots mark (record { weight = weight; ship = ship; slot = slot })) (W.state out.old) (W.state out.new) }
{
    match mark {
        Mark::Named => {
            out.put(b" + ");
            out.put_number(weight);
            put_name(out, ship, slot);
        }
        Mark::Plus => {
            out.put(b"+");
            out.put_number(weight);
            put_number(out, flat, ship, slot);
        }
        Mark::Minus => {
            out.put(b"-");
            out.put_number(weight);
            put_number(out, flat, ship, slot);
        }
    }
}

/// Puts the term of a slot, if the ship has a value there.
fn put_term_at<W: Writer>(
    out: &mut W,
    flat: &Flat,
    mark: Mark,
    weight: u32,
    ship: ShipId,
    slot: Slot,
)
    requires ship_in { ship < flat.now.ships }
    requires slot_in { slot < flat.now.slots }
    ensures { Puts (terms_text flat.now.slots mark (term_at flat.now weight ship slot)) (W.state out.old) (W.state out.new) }
{
    if flat.value(ship, slot).is_some() {
        put_term(out, flat, mark, u64::from(weight), ship, slot);
    } else {
        out.put(b"");
    }
}

/// Puts the terms of a span.
pub(crate) fn put_span<W: Writer>(out: &mut W, flat: &Flat, mark: Mark, span: Span)
    requires fits { SpanFits flat.now span }
    ensures { Puts (terms_text flat.now.slots mark (span_terms flat.now span)) (W.state out.old) (W.state out.new) }
{
    for slot in span.from..span.to {
        put_term_at(out, flat, mark, span.weight, span.ship, slot);
    }
}

/// Puts the terms of some spans.
pub(crate) fn put_spans<W: Writer>(out: &mut W, flat: &Flat, mark: Mark, spans: &[Span])
    requires fit { All (SpanFits flat.now) spans.now }
    ensures { Puts (terms_text flat.now.slots mark (terms_of flat.now spans.now)) (W.state out.old) (W.state out.new) }
{
    for span in spans {
        put_span(out, flat, mark, *span);
    }
}

/// Puts the term of weight 0 that stands for a sum without terms.
pub(crate) fn put_no_terms<W: Writer>(out: &mut W, flat: &Flat, mark: Mark)
    ensures { Puts (terms_text flat.now.slots mark (with_a_term [])) (W.state out.old) (W.state out.new) }
{
    let _shape = flat.shape();
    put_term(out, flat, mark, 0, 0, 0);
}

/// The most that a ship may carry.
pub(crate) fn most(flat: &Flat, ship: ShipId) -> u64
    requires ship_in { ship < flat.now.ships }
    ensures value { result ≡ most flat.now ship }
    ensures small { result ≤ MOST_VALUE }
{
    let _shape = flat.shape();
    greatest_value(flat, ship, 0, flat.shape().slots - 1)
}

/// What a value counts in the objective of a ship that may carry `top` at most.
fn counts(format: Format, top: u64, value: u64) -> u64
    ensures { result ≡ counts format top value }
{
    match format {
        Format::Lp => value,
        Format::Opb => top.saturating_sub(value),
    }
}

/// Puts the term of a ship's value in a slot, if it has one.
fn put_value<W: Writer>(
    out: &mut W,
    flat: &Flat,
    format: Format,
    top: u64,
    ship: ShipId,
    slot: Slot,
)
    requires ship_in { ship < flat.now.ships }
    requires slot_in { slot < flat.now.slots }
    ensures { Puts (sum_text format flat.now.slots (value_term format top ship slot (value_at flat.now ship slot))) (W.state out.old) (W.state out.new) }
{
    match flat.value(ship, slot) {
        None => out.put(b""),
        Some(value) => {
            let mark = mark_of(format, Sense::Exactly);
            put_term(out, flat, mark, counts(format, top, value), ship, slot);
        }
    }
}

/// Puts the terms of a ship's values.
fn put_values<W: Writer>(out: &mut W, flat: &Flat, format: Format, ship: ShipId)
    requires ship_in { ship < flat.now.ships }
    ensures { Puts (sum_text format flat.now.slots (value_terms format flat.now ship 0 flat.now.slots)) (W.state out.old) (W.state out.new) }
{
    let top = most(flat, ship);
    for slot in 0..flat.shape().slots {
        put_value(out, flat, format, top, ship, slot);
    }
}

/// Puts the terms of all ships' values.
pub(crate) fn put_ships<W: Writer>(out: &mut W, flat: &Flat, format: Format)
    ensures { Puts (sum_text format flat.now.slots (ships_terms format flat.now 0 flat.now.ships)) (W.state out.old) (W.state out.new) }
{
    for ship in 0..flat.shape().ships {
        put_values(out, flat, format, ship);
    }
}

/// Puts the name of a variable, if the ship has a value in the slot.
fn put_name_at<W: Writer>(out: &mut W, flat: &Flat, ship: ShipId, slot: Slot)
    requires ship_in { ship < flat.now.ships }
    requires slot_in { slot < flat.now.slots }
    ensures { Puts (variables_text (value_term Format.Lp (most flat.now ship) ship slot (value_at flat.now ship slot))) (W.state out.old) (W.state out.new) }
{
    match flat.value(ship, slot) {
        None => out.put(b""),
        Some(_) => put_name(out, ship, slot),
    }
}

/// Puts the names of a ship's variables.
fn put_ship_names<W: Writer>(out: &mut W, flat: &Flat, ship: ShipId)
    requires ship_in { ship < flat.now.ships }
    ensures { Puts (variables_text (value_terms Format.Lp flat.now ship 0 flat.now.slots)) (W.state out.old) (W.state out.new) }
{
    for slot in 0..flat.shape().slots {
        put_name_at(out, flat, ship, slot);
    }
}

/// Puts the names of all variables.
pub(crate) fn put_names<W: Writer>(out: &mut W, flat: &Flat)
    ensures { Puts (variables_text (ships_terms Format.Lp flat.now 0 flat.now.ships)) (W.state out.old) (W.state out.new) }
{
    for ship in 0..flat.shape().ships {
        put_ship_names(out, flat, ship);
    }
}

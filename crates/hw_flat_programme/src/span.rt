//! Slots of a ship, and the terms of their variables.

ghost use Rattle.std.specs.Prelude.{◌≡◌, ◌<◌, ◌≤◌, ◌*◌, All, length};
ghost use Rattle.hw_flat_programme.specs.Programmes.{weight_of};
ghost use Rattle.hw_flat_programme.specs.Rows.{SpanFits, span_terms, term_at, terms_of};

use crate::limits::{MOST_SPAN_WEIGHT, MOST_SPANS};
use hw_flat::Flat;
use hw_model::{ShipId, Slot};

/// The slots of a ship from one to before another, with a weight.
#[derive(Clone, Copy)]
pub struct Span {
    pub ship: ShipId,
    pub from: Slot,
    /// The slot after the last one. Where it isn't above `from` there is no slot.
    pub to: Slot,
    pub weight: u32,
}

/// The weight of the term of a slot, 0 where there is none.
fn slot_weight(flat: &Flat, weight: u32, ship: ShipId, slot: Slot) -> u32
    requires ship_in { ship < flat.now.ships }
    requires slot_in { slot < flat.now.slots }
    ensures value { result ≡ weight_of (term_at flat.now weight ship slot) }
    ensures small { result ≤ weight }
{
    if flat.value(ship, slot).is_some() {
        weight
    } else {
        0
    }
}

/// The weight of all terms of a span.
pub(crate) fn span_weight(flat: &Flat, span: Span) -> u32
    requires fits { SpanFits flat.now span }
    ensures value { result ≡ weight_of (span_terms flat.now span) }
    ensures small { result ≤ MOST_SPAN_WEIGHT }
{
    let _slots = flat.shape();
    let mut sum = 0;
    for slot in span.from..span.to {
        sum += slot_weight(flat, span.weight, span.ship, slot);
    }
    sum
}

/// The weight of all terms of some spans.
pub(crate) fn weight(flat: &Flat, spans: &[Span]) -> u32
    requires fit { All (SpanFits flat.now) spans.now }
    requires few { length spans.now ≤ MOST_SPANS }
    ensures value { result ≡ weight_of (terms_of flat.now spans.now) }
{
    let mut sum = 0;
    for span in spans {
        sum += span_weight(flat, *span);
    }
    sum
}

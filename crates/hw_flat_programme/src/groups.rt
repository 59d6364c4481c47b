//! Windows of a pair, grown to groups of ships of which at most one sails in its window.

ghost use Rattle.std.specs.Prelude.{◌≡◌, ◌<◌, ◌≤◌, ◌+◌, All, length};
ghost use Rattle.hw_flat_programme.specs.Rows.{IsWindow, apart_from, grown, joint, meet, with_ship};

use crate::apart::Apart;
use crate::span::{Span, span_weight};
use crate::spans::Spans;
use crate::windows::partner;
use hw_model::ShipId;

/// The sailing slots of a ship that a hole keeps apart from each slot of a window; none where the two ships have no hole.
fn apart_from(apart: &Apart, ship: ShipId, span: Span) -> Span
    requires window { IsWindow apart.now span }
    requires ship_in { ship < apart.now.ships }
    ensures value { result ≡ apart_from apart.now ship span }
    ensures window { IsWindow apart.now result }
{
    let _limits = apart.flat().shape();
    let _horizon = apart.flat().horizon();
    match apart.hole(span.ship, ship) {
        None => Span {
            ship,
            from: 0,
            to: 0,
            weight: 1,
        },
        Some(hole) => partner(apart.flat(), ship, hole, span),
    }
}

/// The slots of two windows of a ship.
fn meet(one: Span, other: Span) -> Span
    ensures { result ≡ meet one other }
{
    Span {
        ship: one.ship,
        from: one.from.max(other.from),
        to: one.to.min(other.to),
        weight: 1,
    }
}

/// The sailing slots of a ship that are kept apart from each slot of some windows.
fn joint(apart: &Apart, ship: ShipId, spans: &[Span]) -> Span
    requires windows { All (IsWindow apart.now) spans.now }
    requires ship_in { ship < apart.now.ships }
    ensures value { result ≡ joint apart.now ship spans.now }
    ensures window { IsWindow apart.now result }
{
    let mut joint = Span {
        ship,
        from: 0,
        to: apart.flat().horizon(),
        weight: 1,
    };
    for span in spans {
        joint = meet(joint, apart_from(apart, ship, *span));
    }
    joint
}

/// Appends the window of a ship that is kept apart from all of some windows, if it has a value there.
fn grow(apart: &Apart, ship: ShipId, spans: &mut Spans)
    requires windows { All (IsWindow apart.now) spans.old }
    requires ship_in { ship < apart.now.ships }
    requires few { length spans.old ≤ ship + 2 }
    ensures value { spans.new ≡ with_ship apart.now spans.old ship }
    ensures windows { All (IsWindow apart.now) spans.new }
    ensures few { length spans.new ≤ ship + 3 }
{
    let _limits = apart.flat().shape();
    let window = joint(apart, ship, spans.as_slice());
    if span_weight(apart.flat(), window) != 0 {
        spans.push(window);
    }
}

/// Two windows, grown by each ship in turn.
pub(crate) fn grown(apart: &Apart, two: Spans) -> Spans
    requires windows { All (IsWindow apart.now) two }
    requires few { length two ≤ 2 }
    ensures value { result ≡ grown apart.now two }
    ensures windows { All (IsWindow apart.now) result }
    ensures few { length result ≤ apart.now.ships + 2 }
{
    let flat = apart.flat();
    let mut spans = two;
    for ship in 0..flat.shape().ships {
        grow(apart, ship, &mut spans);
    }
    spans
}

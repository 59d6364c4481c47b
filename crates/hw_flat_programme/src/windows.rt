//! The spans of the rows of a rule.

ghost use Rattle.std.specs.Prelude.{◌≡◌, ◌<◌, ◌≤◌, ◌≤ℤ◌, ◌+ℤ◌, ◌-ℤ◌, ◌+◌, pos, All, length};
ghost use Rattle.hw_model.specs.Limits.{HoleFits, JobFits};
ghost use Rattle.hw_model.specs.Problem.{horizon};
ghost use Rattle.hw_model.specs.declared.limits.TheConstants.{MOST_DIFFERENCE, MOST_SHIPS, MOST_SLOTS};
ghost use Rattle.hw_flat_programme.specs.Rows.{IsWindow, SpanFits, after_spans, first_window, job_span, job_spans, partner, slot_from, whole_span, width, window_spans};

use crate::limits::MOST_WINDOWS;
use crate::span::Span;
use crate::spans::Spans;
use hw_flat::Flat;
use hw_model::{Hole, Job, ShipId, Slot};

/// All slots of a ship.
pub(crate) fn whole_span(flat: &Flat, ship: ShipId) -> Span
    requires { ship < flat.now.ships }
    ensures value { result ≡ whole_span flat.now ship }
    ensures fits { SpanFits flat.now result }
{
    Span {
        ship,
        from: 0,
        to: flat.shape().slots,
        weight: 1,
    }
}

/// How many slots the first ship's window has, 1 to 1,024.
pub(crate) fn width(hole: Hole) -> u32
    requires fits { HoleFits hole }
    ensures value { result ≡ width hole }
    ensures small { result ≤ MOST_DIFFERENCE + 1 }
{
    slot_from(i64::from(hole.hi) - i64::from(hole.lo)) / 2 + 1
}

/// The first slot that isn't before a time.
fn slot_from(time: i64) -> u32
    requires { time ≤ℤ pos 4_294_967_295 }
    ensures { result ≡ slot_from time }
{
    time.max(0) as u32
}

/// The window of the first ship that ends with a slot.
fn first_window(flat: &Flat, v: ShipId, hole: Hole, last: Slot) -> Span
    requires fits { HoleFits hole }
    requires near { last ≤ MOST_WINDOWS }
    requires ship_in { v < flat.now.ships }
    ensures value { result ≡ first_window flat.now v hole last }
    ensures window { IsWindow flat.now result }
{
    Span {
        ship: v,
        from: (last + 1).saturating_sub(width(hole)),
        to: (last + 1).min(flat.horizon()),
        weight: 1,
    }
}

/// The first slot that a hole keeps apart from the last one of a window, which ends before `to`.
fn partner_from(to: Slot, lo: i32) -> Slot
    requires near { to ≤ MOST_SLOTS }
    requires small { lo ≤ℤ pos MOST_DIFFERENCE }
    ensures { result ≡ slot_from ((pos to -ℤ pos 1) +ℤ lo) }
{
    slot_from(i64::from(to) - 1 + i64::from(lo))
}

/// The slot after the last one that a hole keeps apart from the first one of a window.
fn partner_to(from: Slot, hi: i32) -> Slot
    requires near { from ≤ MOST_WINDOWS }
    requires small { hi ≤ℤ pos MOST_DIFFERENCE }
    ensures { result ≡ slot_from ((pos from +ℤ hi) +ℤ pos 1) }
{
    slot_from(i64::from(from) + i64::from(hi) + 1)
}

/// The sailing slots of the second ship that a hole keeps apart from each slot of a window of the first one.
pub(crate) fn partner(flat: &Flat, w: ShipId, hole: Hole, first: Span) -> Span
    requires fits { HoleFits hole }
    requires near { first.from ≤ MOST_WINDOWS }
    requires first_in { first.to ≤ MOST_SLOTS }
    requires ship_in { w < flat.now.ships }
    ensures value { result ≡ partner flat.now w hole first }
    ensures window { IsWindow flat.now result }
{
    Span {
        ship: w,
        from: partner_from(first.to, hole.lo),
        to: flat.horizon().min(partner_to(first.from, hole.hi)),
        weight: 1,
    }
}

/// The two windows of a hole of which the first one ends with a slot.
pub(crate) fn window_spans(flat: &Flat, v: ShipId, w: ShipId, hole: Hole, last: Slot) -> Spans
    requires fits { HoleFits hole }
    requires near { last ≤ MOST_WINDOWS }
    requires first_in { v < flat.now.ships }
    requires second_in { w < flat.now.ships }
    ensures value { result ≡ window_spans flat.now v w hole last }
    ensures windows { All (IsWindow flat.now) result }
    ensures two { length result ≤ 2 }
{
    let _slots = flat.horizon();
    let first = first_window(flat, v, hole, last);
    let mut two = Spans::new();
    two.push(first);
    two.push(partner(flat, w, hole, first));
    two
}

/// The slots of two ships that a precedence keeps apart, where the first one has a slot or a later one.
pub(crate) fn after_spans(flat: &Flat, v: ShipId, w: ShipId, gap: u32, slot: Slot) -> [Span; 2]
    requires short { gap ≤ MOST_SLOTS }
    requires near { slot ≤ MOST_SLOTS + 1 }
    requires first_in { v < flat.now.ships }
    requires second_in { w < flat.now.ships }
    ensures value { result ≡ after_spans flat.now v w gap slot }
    ensures fits { All (SpanFits flat.now) result }
{
    let first = Span {
        ship: v,
        from: slot,
        to: flat.shape().slots,
        weight: 1,
    };
    let second = Span {
        ship: w,
        from: 0,
        to: flat.horizon().min(slot + gap),
        weight: 1,
    };
    [first, second]
}

/// The slots from which a job holds its tugs in a slot.
fn job_span(job: Job, slot: Slot) -> Span
    requires { slot ≤ MOST_SLOTS }
    ensures { result ≡ job_span slot job }
{
    Span {
        ship: job.ship,
        from: (slot + 1).saturating_sub(job.hold),
        to: slot + 1,
        weight: job.tugs,
    }
}

/// Those of all jobs.
pub(crate) fn job_spans(jobs: &[Job], slot: Slot) -> Spans
    requires slot_in { slot ≤ MOST_SLOTS }
    requires few { length jobs.now ≤ MOST_SHIPS }
    ensures { result ≡ job_spans jobs.now slot }
{
    let mut spans = Spans::new();
    for job in jobs {
        spans.push(job_span(*job, slot));
    }
    spans
}

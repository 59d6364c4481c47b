//! Counting the rows of a programme.

ghost use Rattle.std.specs.Prelude.{◌≡◌, ◌<◌, ◌≤◌, ◌+◌, ◌-◌, ◌*◌, All, map, length};
ghost use Rattle.hw_model.specs.Limits.{HoleFits, RuleFits, TugsFit};
ghost use Rattle.hw_model.specs.Problem.{horizon};
ghost use Rattle.hw_model.specs.declared.limits.TheConstants.{MOST_HOLES, MOST_SHIPS, MOST_SLOTS, MOST_RULES};
ghost use Rattle.hw_flat_programme.specs.Rows.{IsWindow, SpanFits, after_rows, row_at_most, grown, hole_rows, job_span, rows_of, rule_rows, rules_rows, tug_rows, width, window_rows};

use crate::apart::{Apart, HoleTable};
use crate::groups::grown;
use crate::limits::{MOST_RULE_ROWS, MOST_SPANS, MOST_WINDOWS};
use crate::span::{Span, weight};
use crate::spans::Spans;
use crate::windows::{after_spans, job_spans, width, window_spans};
use hw_flat::Flat;
use hw_model::{Hole, Job, Rule, ShipId, Step};
use hw_rules::Fleet;

/// How many rows `put_at_most` puts: one or none.
fn count_at_most(flat: &Flat, bound: u32, spans: &[Span]) -> u32
    requires fit { All (SpanFits flat.now) spans.now }
    requires few { length spans.now ≤ MOST_SPANS }
    ensures value { result ≡ length (row_at_most flat.now bound spans.now) }
    ensures small { result ≤ 1 }
{
    if bound < weight(flat, spans) { 1 } else { 0 }
}

/// How many rows `put_group` puts: one or none.
#[tactic(auto, using(crate::proofs::Grouped::windows_fit))]
fn count_group(apart: &Apart, two: Spans) -> u32
    requires windows { All (IsWindow apart.now) two }
    requires few { length two ≤ 2 }
    ensures value { result ≡ length (row_at_most apart.now 1 (grown apart.now two)) }
    ensures small { result ≤ 1 }
{
    let flat = apart.flat();
    let _limits = flat.shape();
    count_at_most(flat, 1, grown(apart, two).as_slice())
}

/// How many rows a hole has.
fn count_hole(apart: &Apart, v: ShipId, w: ShipId, hole: Hole) -> u32
    requires fits { HoleFits hole }
    requires first_in { v < apart.now.ships }
    requires second_in { w < apart.now.ships }
    ensures value { result ≡ length (window_rows apart.now v w hole) }
    ensures small { result ≤ MOST_WINDOWS }
{
    let mut count = 0;
    let flat = apart.flat();
    for last in 0..flat.horizon() + width(hole) - 1 {
        count += count_group(apart, window_spans(flat, v, w, hole, last));
    }
    count
}

/// How many rows some holes have.
fn count_holes(apart: &Apart, v: ShipId, w: ShipId, holes: &[Hole]) -> u32
    requires fit { All HoleFits holes.now }
    requires few { length holes.now ≤ MOST_HOLES }
    requires first_in { v < apart.now.ships }
    requires second_in { w < apart.now.ships }
    ensures value { result ≡ length (hole_rows apart.now v w holes.now) }
    ensures small { result ≤ MOST_RULE_ROWS }
{
    let mut count = 0;
    for hole in holes {
        count += count_hole(apart, v, w, *hole);
    }
    count
}

/// How many rows a precedence has.
fn count_after(flat: &Flat, v: ShipId, w: ShipId, gap: u32) -> u32
    requires short { gap ≤ MOST_SLOTS }
    requires first_in { v < flat.now.ships }
    requires second_in { w < flat.now.ships }
    ensures value { result ≡ length (after_rows flat.now v w gap) }
    ensures small { result ≤ MOST_SLOTS + 1 }
{
    let mut count = 0;
    for slot in 0..flat.shape().slots {
        count += count_at_most(flat, 1, &after_spans(flat, v, w, gap, slot));
    }
    count
}

/// How many rows a rule on tugs has.
fn count_tugs(flat: &Flat, fleet: u32, later: &[Step], jobs: &[Job]) -> u32
    requires { TugsFit flat.now.ships fleet later.now jobs.now }
    ensures value { result ≡ length (tug_rows flat.now fleet later.now jobs.now) }
    ensures small { result ≤ MOST_SLOTS }
{
    let mut count = 0;
    let mut tugs = Fleet::new(fleet, later);
    for slot in 0..flat.horizon() {
        let bound = tugs.tugs_in(slot);
        count += count_at_most(flat, bound, job_spans(jobs, slot).as_slice());
    }
    count
}

/// How many rows a rule has.
fn count_rule(apart: &Apart, rule: &Rule) -> u32
    requires { RuleFits apart.now.ships rule.now }
    ensures value { result ≡ length (rule_rows apart.now rule.now) }
    ensures small { result ≤ MOST_RULE_ROWS }
{
    match rule {
        Rule::Pair { v, w, holes } => count_holes(apart, *v, *w, &holes.items),
        Rule::After { v, w, gap } => count_after(apart.flat(), *v, *w, *gap),
        Rule::Tugs { fleet, later, jobs } => count_tugs(
            apart.flat(),
            *fleet,
            &later.items,
            &jobs.items,
        ),
    }
}

/// How many rows the rules have.
fn count_rules(apart: &Apart, rules: &[Rule]) -> u32
    requires fit { All (RuleFits apart.now.ships) rules.now }
    requires few { length rules.now ≤ MOST_RULES }
    ensures value { result ≡ length (rules_rows apart.now rules.now) }
    ensures small { result ≤ MOST_RULE_ROWS * MOST_RULES }
{
    let mut count = 0;
    for rule in rules {
        count += count_rule(apart, rule);
    }
    count
}

/// How many rows there are. It goes through all terms once.
pub(crate) fn count_rows(flat: &Flat) -> u32
    ensures value { result ≡ length (rows_of flat.now) }
    ensures few { result ≤ MOST_SHIPS + MOST_RULES * MOST_RULE_ROWS }
{
    let table = HoleTable::new(flat);
    let apart = Apart::new(flat, &table);
    flat.shape().ships + count_rules(&apart, flat.rules())
}

//! Runs of slots in which a ship fares alike.

ghost use Rattle.std.specs.Prelude.{◌≡◌, ◌<◌, ◌≤◌, ◌+◌, ◌∷◌};
ghost use Rattle.hw_port_model.specs.Numbers.{horizon_of};
ghost use Rattle.hw_port_windows.specs.Runs.{deeper_slot, deepest_in, lighter, lightest_in, runs_within};
ghost use Rattle.hw_port_windows.specs.Windows.{drafts, statuses};

use crate::asked::Asked;
use hw_model::Slot;

/// Some slots one after another: the first and the last of them.
#[derive(Clone, Copy)]
pub struct Run {
    pub first: Slot,
    pub last: Slot,
}

/// The first slot of a run with the least draft, and the first with the greatest one.
#[derive(Clone, Copy)]
pub struct Extremes {
    pub light: Slot,
    pub deep: Slot,
}

/// The first of the longest runs in a span. It works out each of its slots twice.
pub fn first_run(asked: &Asked, span: Run) -> Run
    requires ordered { span.first ≤ span.last }
    requires inside { span.last < horizon_of asked.now.port }
    ensures runs { runs_within (statuses asked.now) span ≡ result ∷ runs_within (statuses asked.now) (record span { first = result.last + 1 }) }
    ensures begins { result.first ≡ span.first }
    ensures ordered { result.first ≤ result.last }
    ensures inside { result.last ≤ span.last }
{
    for slot in span.first..span.last {
        if !asked.goes_on(slot) {
            return Run {
                first: span.first,
                last: slot,
            };
        }
    }
    span
}

/// Of two slots the one with the lesser draft.
fn lighter(asked: &Asked, one: Slot, other: Slot) -> Slot
    requires one { one < horizon_of asked.now.port }
    requires other { other < horizon_of asked.now.port }
    ensures value { result ≡ lighter (drafts asked.now) one other }
    ensures inside { result < horizon_of asked.now.port }
{
    if asked.draft(other) < asked.draft(one) {
        other
    } else {
        one
    }
}

/// Of two slots the one with the greater draft.
fn deeper(asked: &Asked, one: Slot, other: Slot) -> Slot
    requires one { one < horizon_of asked.now.port }
    requires other { other < horizon_of asked.now.port }
    ensures value { result ≡ deeper_slot (drafts asked.now) one other }
    ensures inside { result < horizon_of asked.now.port }
{
    if asked.draft(one) < asked.draft(other) {
        other
    } else {
        one
    }
}

/// The slots of a run with the least and the greatest draft. It works out each slot four times.
pub fn extremes_in(asked: &Asked, run: Run) -> Extremes
    requires ordered { run.first ≤ run.last }
    requires inside { run.last < horizon_of asked.now.port }
    ensures light { result.light ≡ lightest_in (drafts asked.now) run }
    ensures light_inside { result.light < horizon_of asked.now.port }
    ensures deep { result.deep ≡ deepest_in (drafts asked.now) run }
    ensures deep_inside { result.deep < horizon_of asked.now.port }
{
    let mut light = run.first;
    let mut deep = run.first;
    for slot in run.first..run.last {
        light = lighter(asked, light, slot + 1);
        deep = deeper(asked, deep, slot + 1);
    }
    Extremes { light, deep }
}

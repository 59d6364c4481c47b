//! Propagators that are made one by one, in the order in which a search asks its sources.

ghost use Rattle.std.specs.Prelude.{◌≡◌, All, IfOk, IsTrue, map};
ghost use Rattle.hw_model.specs.Problem.{shape_of};
ghost use Rattle.hw_model.specs.Refuting.{IsSourceOf};
ghost use Rattle.hw_model.specs.Rooms.{whole_room};
ghost use Rattle.hw_search_laws.specs.Starting.{EachSourceOnce};
ghost use Rattle.hw_rules.specs.Sources.{AreSourcesOf};

use hw_flat::{Flat, NoMemory, Source};
use hw_prop::{Propagator, Shaver};
use hw_rules::sources;
use hw_search_sources::{AnyPropagator, for_source};
use std::alloc::Global;
use std::test::Fail;

/// How a search asks its sources.
#[derive(Clone, Copy, Debug)]
pub enum Asking {
    /// Each by trying.
    Trying,
    /// Each by the propagator that is made for it.
    Made,
}

// All sources: the windows by ship, the rules by place, the orders of ships v < w < x by v, w and x,
// and the goal.
fn in_order(alloc: Global, flat: &Flat) -> Result<Vec<Source>, Fail> {
    let shape = flat.shape();
    let mut list = Vec::new(alloc);
    for ship in 0..shape.ships {
        list.push(Source::Window { ship })?;
    }
    for place in 0..shape.rules {
        list.push(Source::Rule { place })?;
    }
    for v in 0..shape.ships {
        for w in v + 1..shape.ships {
            for x in w + 1..shape.ships {
                list.push(Source::Order { v, w, x })?;
            }
        }
    }
    list.push(Source::Goal)?;
    Ok(list)
}

fn is_same(one: &[Source], other: &[Source]) -> bool
    ensures { IsTrue result → one.now ≡ other.now }
{
    one == other
}

// The same list, which fails where the problem's own list of sources is another one.
fn listed(alloc: Global, flat: &Flat) -> Result<Vec<Source>, Fail>
    ensures { IfOk result (λ list. AreSourcesOf flat.now list.items) }
{
    let list = in_order(alloc, flat)?;
    let own = sources(alloc, flat)?;
    if !is_same(&list, &own) {
        return Err(Fail::new("sources in another order"));
    }
    Ok(list)
}

fn make(
    alloc: Global,
    flat: &Flat,
    source: Source,
    asking: Asking,
) -> Result<AnyPropagator, NoMemory>
    requires source_in { IsSourceOf flat.now source }
    ensures source { IfOk result (λ one. ⟦<AnyPropagator as Propagator>⟧.source one ≡ source) }
    ensures ready { IfOk result (λ one. ⟦<AnyPropagator as Propagator>⟧.ready one flat.now (whole_room (shape_of flat.now))) }
{
    let _shape = flat.shape();
    match asking {
        Asking::Trying => Ok(AnyPropagator::Shaver(Shaver::new(source))),
        Asking::Made => for_source(alloc, flat, source),
    }
}

/// A propagator for each source, in order, ready for the whole room.
pub fn propagators(alloc: Global, flat: &Flat, asking: Asking) -> Result<Vec<AnyPropagator>, Fail>
    ensures sources { IfOk result (λ props. EachSourceOnce flat.now (map ⟦<AnyPropagator as Propagator>⟧.source props.items)) }
    ensures ready { IfOk result (λ props. All (λ one. ⟦<AnyPropagator as Propagator>⟧.ready one flat.now (whole_room (shape_of flat.now))) props.items) }
{
    let list = listed(alloc, flat)?;
    let mut props = Vec::with_capacity(alloc, list.len())?;
    for source in &list {
        let one = make(alloc, flat, *source, asking)?;
        props.push(one)?;
    }
    Ok(props)
}

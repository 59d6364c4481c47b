//! A propagator of any kind, the one for a source, and those for all sources of a problem.
ghost use Rattle.std.specs.Prelude.{◌≡◌, ◌<◌, All, IfOk, Some, length, map, slice_get};
ghost use Rattle.hw_model.specs.Problem.{shape_of};
ghost use Rattle.hw_model.specs.Refuting.{IsSourceOf};
ghost use Rattle.hw_model.specs.Rooms.{whole_room};
ghost use Rattle.hw_search_laws.specs.Starting.{EachSourceOnce};
ghost use Rattle.hw_prop.specs.Ruled.{rule_of};
ghost use Rattle.hw_rules.specs.Sources.{AreSourcesOf};
ghost use Rattle.hw_search_sources.specs.MadeFor.{IsMadeFor, IsMadeForRule};

use hw_flat::{Flat, Room, Rule, Source};
use hw_goal::GoalBound;
use hw_lits::Found;
use hw_model::NoMemory;
use hw_pairs::{Berth, Channel, OrderTriple, Separation};
use hw_prop::{Propagator, Shaver};
use hw_rules::sources;
use hw_tugs::TugProfile;
use std::alloc::Global;

/// A propagator of one of the kinds.
#[derive(Drop)]
pub enum AnyPropagator {
    Shaver(Shaver),
    Channel(Channel),
    Separation(Separation),
    Berth(Berth),
    OrderTriple(OrderTriple),
    TugProfile(TugProfile),
    GoalBound(GoalBound),
}

macro_rules! of_each {
    ($any:expr, $one:ident => $call:expr) => {
        match $any {
            AnyPropagator::Shaver($one) => $call,
            AnyPropagator::Channel($one) => $call,
            AnyPropagator::Separation($one) => $call,
            AnyPropagator::Berth($one) => $call,
            AnyPropagator::OrderTriple($one) => $call,
            AnyPropagator::TugProfile($one) => $call,
            AnyPropagator::GoalBound($one) => $call,
        }
    };
}

// What the kinds of propagators mean.
trait Meant {
    ghost use Rattle.hw_search_sources.specs.Any.{Kinds};

    ghost kinds: { Kinds };
}

// Each kind in a row: its members, that what is ready serves, and that what serves has the source.
impl Meant for AnyPropagator {
    ghost kinds = { record {
      shaver = record { says = ⟦<Shaver as Propagator>⟧; ready_serves = λ p f room h. h.0; serves_source = λ p f h. h.0 };
      channel = record { says = ⟦<Channel as Propagator>⟧; ready_serves = λ p f room h. h.0; serves_source = λ p f h. h.0 };
      separation = record { says = ⟦<Separation as Propagator>⟧; ready_serves = λ p f room h. h.0; serves_source = λ p f h. h.0 };
      berth = record { says = ⟦<Berth as Propagator>⟧; ready_serves = λ p f room h. h.0; serves_source = λ p f h. h.0 };
      order_triple = record { says = ⟦<OrderTriple as Propagator>⟧; ready_serves = λ p f room h. h.0; serves_source = λ p f h. h.0 };
      tug_profile = record { says = ⟦<TugProfile as Propagator>⟧; ready_serves = λ p f room h. h.keeps; serves_source = λ p f h. h.of_tugs.0 };
      goal_bound = record { says = ⟦<GoalBound as Propagator>⟧; ready_serves = λ p f room h. h.0; serves_source = λ p f h. tt };
    } };
}

impl Propagator for AnyPropagator {
    ghost use Rattle.hw_search_sources.specs.Any.{propagator_meaning};

    ghost source = { λ one. (propagator_meaning ⟦<AnyPropagator as Meant>⟧.kinds one).source };

    ghost serves = { λ one. (propagator_meaning ⟦<AnyPropagator as Meant>⟧.kinds one).serves };

    ghost ready = { λ one. (propagator_meaning ⟦<AnyPropagator as Meant>⟧.kinds one).ready };

    ghost ready_serves = { λ one. (propagator_meaning ⟦<AnyPropagator as Meant>⟧.kinds one).ready_serves };

    ghost serves_source = { λ one. (propagator_meaning ⟦<AnyPropagator as Meant>⟧.kinds one).serves_source };

    fn source(&self) -> Source {
        of_each!(self, one => one.source())
    }

    fn step(
        &mut self,
        alloc: Global,
        flat: &Flat,
        best: Option<u64>,
        room: &Room,
    ) -> Result<Found, NoMemory> {
        of_each!(self, one => one.step(alloc, flat, best, room))
    }

    fn undone(&mut self, flat: &Flat, room: &Room) {
        of_each!(self, one => one.undone(flat, room))
    }
}

// The propagator of a rule's source.
fn for_rule(
    alloc: Global,
    flat: &Flat,
    source: Source,
    rule: &Rule,
) -> Result<AnyPropagator, NoMemory>
    requires source_in { IsSourceOf flat.now source }
    requires rule { rule_of flat.now source ≡ Some rule.now }
    ensures source { IfOk result (λ one. ⟦<AnyPropagator as Propagator>⟧.source one ≡ source) }
    ensures ready { IfOk result (λ one. ⟦<AnyPropagator as Propagator>⟧.ready one flat.now (whole_room (shape_of flat.now))) }
    ensures kind { IfOk result (IsMadeForRule (Some rule.now)) }
{
    let _shape = flat.shape();
    match rule {
        Rule::Pair { holes, .. } => {
            if holes.items.len() == 1 {
                Ok(AnyPropagator::Separation(Separation::new(flat, source)))
            } else {
                Ok(AnyPropagator::Channel(Channel::new(flat, source)))
            }
        }
        Rule::After { .. } => Ok(AnyPropagator::Berth(Berth::new(flat, source))),
        Rule::Tugs { .. } => {
            let profile = TugProfile::new(alloc, flat, source)?;
            Ok(AnyPropagator::TugProfile(profile))
        }
    }
}

/// The propagator of a source of the problem, of the kind that is made for such sources, ready for the
/// whole room. An error says that memory ran out.
pub fn for_source(alloc: Global, flat: &Flat, source: Source) -> Result<AnyPropagator, NoMemory>
    requires source_in { IsSourceOf flat.now source }
    ensures source { IfOk result (λ one. ⟦<AnyPropagator as Propagator>⟧.source one ≡ source) }
    ensures ready { IfOk result (λ one. ⟦<AnyPropagator as Propagator>⟧.ready one flat.now (whole_room (shape_of flat.now))) }
    ensures kind { IfOk result (IsMadeFor flat.now source) }
{
    let _shape = flat.shape();
    match source {
        Source::Window { .. } => Ok(AnyPropagator::Shaver(Shaver::new(source))),
        Source::Rule { place } => for_rule(alloc, flat, source, &flat.rules()[place as usize]),
        Source::Order { .. } => Ok(AnyPropagator::OrderTriple(OrderTriple::new(flat, source))),
        Source::Goal => {
            let goal = GoalBound::new(alloc, flat)?;
            Ok(AnyPropagator::GoalBound(goal))
        }
    }
}

/// A propagator for each source, of the kind that is made for it, in the order of the sources, ready
/// for the whole room.
pub fn propagators(alloc: Global, flat: &Flat) -> Result<Vec<AnyPropagator>, NoMemory>
    ensures sources { IfOk result (λ props. EachSourceOnce flat.now (map ⟦<AnyPropagator as Propagator>⟧.source props.items)) }
    ensures order { IfOk result (λ props. AreSourcesOf flat.now (map ⟦<AnyPropagator as Propagator>⟧.source props.items)) }
    ensures ready { IfOk result (λ props. All (λ one. ⟦<AnyPropagator as Propagator>⟧.ready one flat.now (whole_room (shape_of flat.now))) props.items) }
    ensures kinds { IfOk result (λ props. All (λ one. IsMadeFor flat.now (⟦<AnyPropagator as Propagator>⟧.source one) one) props.items) }
{
    let list = sources(alloc, flat)?;
    let mut props = Vec::with_capacity(alloc, list.len())?;
    for source in &list {
        let one = for_source(alloc, flat, *source)?;
        props.push(one)?;
    }
    Ok(props)
}

//! The rule on tugs of a source.

ghost use Rattle.std.specs.Prelude.{◌≡◌, Some};
ghost use Rattle.hw_model.specs.Limits.{TugsFit};
ghost use Rattle.hw_prop.specs.Ruled.{rule_of};
ghost use Rattle.hw_tugs.specs.Kinds.{OfTugs};

use crate::fleets::Fleets;
use hw_flat::{Flat, Job, Rule, Source};
use hw_model::Step;
use hw_prop::BySource;

/// A rule on tugs: its fleet, the steps of that and its jobs.
#[derive(Clone, Copy)]
pub(crate) struct TugsRule<'f> {
    pub fleet: u32,
    pub later: &'f [Step],
    pub jobs: &'f [Job],
}

/// A source under a best, the rule on tugs that it is of, and the fleet of each slot.
#[derive(Clone, Copy)]
pub(crate) struct TugsTest<'f> {
    pub by: BySource<'f>,
    pub rule: TugsRule<'f>,
    pub fleets: &'f Fleets,
}

/// The rule of a source.
pub(crate) fn tugs_rule(flat: &Flat, source: Source) -> TugsRule<'_>
    requires kind { OfTugs flat.now source }
    ensures rule { rule_of flat.now source ≡ Some (Rule.Tugs result.fleet result.later.now result.jobs.now) }
    ensures fits { TugsFit flat.now.ships result.fleet result.later.now result.jobs.now }
{
    let none = TugsRule {
        fleet: 0,
        later: &[],
        jobs: &[],
    };
    match source {
        Source::Rule { place } => match &flat.rules()[place as usize] {
            Rule::Tugs { fleet, later, jobs } => TugsRule {
                fleet: *fleet,
                later: &later.items,
                jobs: &jobs.items,
            },
            _ => none,
        },
        _ => none,
    }
}

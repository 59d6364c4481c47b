//! What is asked of a subject: its problem, with the wishes of its plan.

ghost use Rattle.std.specs.Prelude.{◌≡◌};
ghost use Rattle.hw_clash.specs.Wished.{IsWished};
ghost use Rattle.hw_command_clash.specs.Asked.{asked_by};
ghost use Rattle.hw_subject.specs.Meanings.{repaired_problem};
ghost use Rattle.hw_subject.specs.Reading.{plan_in, searched_in};

use hw_clash::WishedFlat;
use hw_subject::Given;

/// What was read: the problem, with the tugs that the plan leaves and its wishes, if there is one.
pub(crate) fn wished_of(given: &Given) -> WishedFlat<'_>
    requires searched { searched_in given.now.flat given.now.repair ≡ repaired_problem given.now.flat (plan_in given.now.repair) }
    requires fits { IsWished (asked_by given.now.flat (plan_in given.now.repair)) }
    ensures { result ≡ asked_by given.now.flat (plan_in given.now.repair) }
{
    match &given.repair {
        Some(repair) => WishedFlat::of(&given.flat, repair.flat.rules(), &repair.plan.wishes),
        None => WishedFlat::plain(&given.flat),
    }
}

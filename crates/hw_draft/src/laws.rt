//! Which pass limits a draft, and which is the last.

ghost use Rattle.hw_draft.specs.Laws.{LastPassIsLast, SomePassLimits};

/// Wherever a draft is allowed a pass of the ship's route limits it: one that leaves just this draft.
pub fn some_pass_limits()
    ensures { SomePassLimits }
{}

/// No pass of a route is made after its last one, which is one of them.
pub fn last_pass_is_last()
    ensures { LastPassIsLast }
{}

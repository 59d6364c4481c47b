//! Laws of normal clauses and of steps, each a function without a body.

ghost use Rattle.hw_lits.specs.Normal.{ClauseIsNormal, ClauseAscends, OneOfASide};
ghost use Rattle.hw_lits.specs.Steps.{StepTells};

/// A normal clause of a problem's shape is one whatever its problem.
pub fn clause_is_normal()
    ensures { ClauseIsNormal }
{}

/// The literals of a normal clause ascend throughout, and two bounds of one ship leave some slots out.
pub fn clause_ascends()
    ensures { ClauseAscends }
{}

/// A normal clause has at most one literal of each side of a ship, and at most one of a pair.
pub fn one_of_a_side()
    ensures { OneOfASide }
{}

/// What the definition of a step tells of the literals.
pub fn step_tells()
    ensures { StepTells }
{}

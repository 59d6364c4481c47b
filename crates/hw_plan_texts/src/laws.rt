//! The laws of derived problems, each a function without a body whose clause is the law.

ghost use Rattle.hw_plan_texts.specs.Grids.{GridValue};
ghost use Rattle.hw_plan_texts.specs.Alike.{RulesAlike};

/// A problem whose values stand row by row has them by ship and slot.
pub fn grid_value()
    ensures { GridValue }
{}

/// A rule holds alike by problems with the same sailing slots.
pub fn rules_alike()
    ensures { RulesAlike }
{}

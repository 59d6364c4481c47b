//! The law of a subject's words: a function without a body.

ghost use Rattle.hw_subject_laws.specs.Laws.{SameWords};

/// Of a flat text, a port and the repair of either, best, none and bounds are those of the problem, of
/// the port and of the plan.
pub fn same_words()
    ensures { SameWords }
{}

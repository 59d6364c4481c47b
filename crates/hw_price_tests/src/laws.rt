//! The laws of tariffs in force and of blocks that are kept apart, each a function without a body.

ghost use Rattle.hw_price_tests.specs.Asked.{NamedOrAlone};
ghost use Rattle.hw_price_tests.specs.InForce.{ChargedStays};

/// What is charged for tolls stays so when more come after them.
pub fn charged_stays()
    ensures { ChargedStays }
{}

/// A rule that refutes the room of two blocks names both ships, or refutes one of the blocks alone. So a rule that
/// has to be asked for each two blocks names both.
pub fn named_or_alone()
    ensures { NamedOrAlone }
{}

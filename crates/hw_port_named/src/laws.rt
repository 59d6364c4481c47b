//! The laws of a port's restrictions, each a function without a body whose clause is the law.

ghost use Rattle.hw_port_named.specs.Closed.{ToldCloses};
ghost use Rattle.hw_port_named.specs.Laws.{EachIsNamed, NamedByRule, NamedMeans};

/// As many restrictions are named as the flat problem of the port has.
pub fn each_is_named()
    ensures { EachIsNamed }
{}

/// What is named for a number is the flat problem's restriction of that number.
pub fn named_by_rule()
    ensures { NamedByRule }
{}

/// What is named for a number holds of a timetable of the port exactly where the flat problem's
/// restriction of that number does.
pub fn named_means()
    ensures { NamedMeans }
{}

/// Closed slots are told with a ship's window exactly where they close one of its slots.
pub fn told_closes()
    ensures { ToldCloses }
{}

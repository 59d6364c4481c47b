//! Laws of the walk and of numbered restrictions, each a function without a body.

ghost use Rattle.hw_rules.specs.Listing.{RankFollowsOrder, EachListOnce};
ghost use Rattle.hw_rules.specs.Sources.{NoSourceTwice, RestrictionNumbers};

/// A walk takes the lists of slots in lexicographic order.
pub fn rank_follows_order()
    ensures { RankFollowsOrder }
{}

/// A walk visits each list of slots once.
pub fn each_list_once()
    ensures { EachListOnce }
{}

/// A restriction and its source give each other's number and name.
pub fn restriction_numbers()
    ensures { RestrictionNumbers }
{}

/// No source is twice in the list of a problem's sources.
pub fn no_source_twice()
    ensures { NoSourceTwice }
{}

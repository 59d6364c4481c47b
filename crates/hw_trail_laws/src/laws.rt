//! The laws of trails and of what a conflict teaches, each a function without a body.

ghost use Rattle.hw_trail_laws.specs.Laws.{
  KnowsTruth,
  ReplayKnows,
  TrailKept,
  TrailTells,
  TrailLevels,
  FewEvents,
  EventComputed,
  WalkLearns,
  NeverInside,
  EmptyOutside,
  QuietKept,
  FewRooms,
};

/// A room knows what it makes True, and the negation of what it makes False.
pub fn knows_truth()
    ensures { KnowsTruth }
{}

/// A replay of rooms meets a conflict exactly where the replay by what they know does.
pub fn replay_knows()
    ensures { ReplayKnows }
{}

/// No event is a trail, and a decision, an implied literal and going back keep one.
pub fn trail_kept()
    ensures { TrailKept }
{}

/// A trail is a story, whose rooms know what the trail's rooms do.
pub fn trail_tells()
    ensures { TrailTells }
{}

/// Levels don't fall, each from 1 on begins with its only decision, and level 0 has none.
pub fn trail_levels()
    ensures { TrailLevels }
{}

/// A trail has few events.
pub fn few_events()
    ensures { FewEvents }
{}

/// The event that made a literal False.
pub fn event_computed()
    ensures { EventComputed }
{}

/// What the walk back over a story finds is what the conflict teaches.
pub fn walk_learns()
    ensures { WalkLearns }
{}

/// A lemma lies inside no clause that was quiet at the end of the level below.
pub fn never_inside()
    ensures { NeverInside }
{}

/// The whole room lies inside no clause that has a literal.
pub fn empty_outside()
    ensures { EmptyOutside }
{}

/// What was quiet at the ends of lower levels stays so.
pub fn quiet_kept()
    ensures { QuietKept }
{}

/// Clauses none of which lies inside an earlier one are few.
pub fn few_rooms()
    ensures { FewRooms }
{}

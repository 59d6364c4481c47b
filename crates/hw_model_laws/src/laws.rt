//! The laws, each a function without a body whose clause is the law.

ghost use Rattle.hw_model_laws.specs.Laws.{TruthInRoom, CutRoom, DeniedRoom, RisingBest};
ghost use Rattle.hw_model_laws.specs.Soundness.{PermittedCargo, SoundRefutation, PointRoom};
ghost use Rattle.hw_model_laws.specs.Inclusion.{SameRoom, InsideWithin, RefutesWithin, UnspokenRange};
ghost use Rattle.hw_model_laws.specs.Walks.{WholeWalk};
ghost use Rattle.hw_model_laws.specs.Kept.{CutIsRoom, FlatShape, DeniedIsRoom};
ghost use Rattle.hw_model_laws.specs.Replays.{SoundReplay, QuietStep};
ghost use Rattle.hw_model_laws.specs.Computed.{RefutesComputed, QuietComputed, FirstBrokenComputed, PermitsComputed};
ghost use Rattle.hw_model_laws.specs.Locality.{AlikeRefuted, AlikeQuiet, UnspokenCut, OtherBest};
ghost use Rattle.hw_model_laws.specs.Figures.{GoalChanged, GreatestOfOne, TugsChanged};
ghost use Rattle.hw_model_laws.specs.Rows.{QuietRows, RoomCounts};

/// What a room says of a literal is so for every timetable inside.
pub fn truth_in_room()
    ensures { TruthInRoom }
{}

/// A room cut by a free literal holds the timetables inside of which the literal is true.
pub fn cut_room()
    ensures { CutRoom }
{}

/// The denied room of a clause holds exactly the timetables of which the clause isn't true.
pub fn denied_room()
    ensures { DeniedRoom }
{}

/// What is refuted under a best is refuted under a better one.
pub fn rising_best()
    ensures { RisingBest }
{}

/// A permitted timetable has a cargo.
pub fn permitted_cargo()
    ensures { PermittedCargo }
{}

/// Inside a refuted room a permitted timetable has at most the best cargo, and with no best there
/// is none.
pub fn sound_refutation()
    ensures { SoundRefutation }
{}

/// Where nothing refutes a point room, its timetable is permitted and beats the best.
pub fn point_room()
    ensures { PointRoom }
{}

/// The test of a refutation computes it.
pub fn refutes_computed()
    ensures { RefutesComputed }
{}

/// The test of a quiet source computes it.
pub fn quiet_computed()
    ensures { QuietComputed }
{}

/// The first broken restriction is the one that is computed.
pub fn first_broken_computed()
    ensures { FirstBrokenComputed }
{}

/// A timetable is permitted exactly where no broken restriction is found.
pub fn permits_computed()
    ensures { PermitsComputed }
{}

/// Where a replay from a room ends at a conflict, no timetable inside makes all its clauses true.
pub fn sound_replay()
    ensures { SoundReplay }
{}

/// A room cut by a free literal is a room with the literal's own bound or order.
pub fn cut_is_room()
    ensures { CutIsRoom }
{}

/// The numbers of a flat problem are ones that a problem can have.
pub fn flat_shape()
    ensures { FlatShape }
{}

/// The denied room of a normal clause is a room: it has no empty range.
pub fn denied_is_room()
    ensures { DeniedIsRoom }
{}

/// The first best of all lists of slots is a best timetable, and where no list is permitted none is.
pub fn whole_walk()
    ensures { WholeWalk }
{}

/// Rooms of the same numbers, ranges and orders of pairs are one room.
pub fn same_room()
    ensures { SameRoom }
{}

/// A timetable inside a room is inside each room around it.
pub fn inside_within()
    ensures { InsideWithin }
{}

/// What refutes a room refutes each room inside it.
pub fn refutes_within()
    ensures { RefutesWithin }
{}

/// The range of a ship that a source doesn't speak of doesn't matter to it.
pub fn unspoken_range()
    ensures { UnspokenRange }
{}

/// A clause is quiet exactly where a step of it cuts nothing and is no conflict.
pub fn quiet_step()
    ensures { QuietStep }
{}

/// A source refutes rooms alike that are alike in all that it speaks of.
pub fn alike_refuted()
    ensures { AlikeRefuted }
{}

/// A source is quiet alike in rooms that are alike in all that it speaks of.
pub fn alike_quiet()
    ensures { AlikeQuiet }
{}

/// A cut by a literal that a source doesn't speak of leaves it quiet, or not quiet.
pub fn unspoken_cut()
    ensures { UnspokenCut }
{}

/// To each source but the goal the best doesn't matter.
pub fn other_best()
    ensures { OtherBest }
{}

/// Where one range is set, the sum of the greatest values changes by that ship's alone.
pub fn goal_changed()
    ensures { GoalChanged }
{}

/// The greatest value of a range of one slot is that slot's.
pub fn greatest_of_one()
    ensures { GreatestOfOne }
{}

/// When one range is set, the tugs certainly held in a slot change by that ship's job alone.
pub fn tugs_changed()
    ensures { TugsChanged }
{}

/// Worked rows: where sources are quiet in small rooms, and where they aren't.
pub fn quiet_rows()
    ensures { QuietRows }
{}

/// Worked rows: how many rooms small problems have.
pub fn room_counts()
    ensures { RoomCounts }
{}

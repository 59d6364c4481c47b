//! The settings of the dual, and what each was chosen on.
//!
//! A plain program of this design was measured first, on problems of `bench/problems`. There from 8 to 200 steps in a room,
//! steps of other lengths and an early end changed lemmas by a quarter at most. What is *of the plain program* is as it was
//! there.
//!
//! *The draws* are eighteen problems that were drawn for it, and tight-1-16-96 and demo-3-16-36. The settings together were
//! chosen on them. Lemmas change by two or three times with small changes of a setting, so none is known to be the best.
//! `bench/made` writes problems on which none was tried (docs/BENCHMARKS.md).

// Units.

/// How many parts make a tenth of a tonne. Of the plain program, where 1 was bad with small values.
pub const SCALE: i64 = 1_000;

/// Directions count units in this many parts. Of the plain program.
pub(crate) const UNIT: i64 = 16;

/// How fast steps begin at most. It is the unit of paces, and of the plain program.
pub const FULL_PACE: i64 = 1_024;

// Steps.

/// This part of a direction is kept from the last one, in tenths. Of the plain program; nothing is known of other values.
pub(crate) const KEPT: i64 = 6;

/// At full pace a step is this many sixteenths (`UNIT`) of Polyak's. Of the plain program; nothing is known of other values.
pub(crate) const LENGTH: i64 = 4;

/// After this many steps without a better total the pace falls. Of the plain program; nothing is known of other values.
pub(crate) const PATIENCE: u32 = 12;

/// This part of the pace is left then, in quarters. Of the plain program; nothing is known of other values.
pub(crate) const SLOWED: i64 = 3;

/// A gain of less than one in this many parts of the gap to the target doesn't count as progress. Of the plain program;
/// nothing is known of other values.
pub(crate) const PROGRESS: i64 = 2_000;

/// The target stays at least one in this many parts below the best total. Of the plain program; nothing is known of other
/// values.
pub(crate) const DISTANCE: i64 = 50;

// The whole room.

/// Steps for the whole room, first and after each round. Of the plain program; nothing is known of other values.
pub(crate) const ROOT_STEPS: u32 = 1_000;

/// How fast they begin after a round. Of the plain program; nothing is known of other values.
pub(crate) const ROUND_PACE: i64 = FULL_PACE / 2;

/// Steps of a round in which the chosen slots are counted. Of the plain program; nothing is known of other values.
pub(crate) const COUNTED: u32 = ROOT_STEPS / 3;

/// How fast they begin. Of the plain program; nothing is known of other values.
pub(crate) const COUNTED_PACE: i64 = FULL_PACE / 8;

/// While slots are counted, the target is at most one in this many parts below the least total. Of the plain program; nothing is
/// known of other values.
pub(crate) const NEAR: i64 = 200;

/// At most this many rounds of tolls that are found. Of the plain program; nothing is known of other values.
pub(crate) const ROUNDS: u32 = 20;

/// At most this many tolls a round: the next ones would be much like these. It was 40 at first, and was chosen on the problems
/// of `bench/problems`.
pub(crate) const FOUND: usize = 10;

/// For one in this many of the steps for the whole room timetables are made. Two ways of making them there were tried on
/// four of the large days of `bench/made`, tight-1-12-96, demo-11-12-96 and demo-3-16-36; nothing is known of other values.
pub(crate) const SAMPLED: u32 = 250;

// Rooms of a search.

/// How fast steps in a room begin. It was half the full pace at first; nothing is known of what the change was chosen on.
pub const ROOM_PACE: i64 = FULL_PACE / 16;

/// Steps in a room in which the chosen slots are counted. Chosen on the draws.
pub(crate) const COUNTED_IN_ROOM: u32 = 100;

/// At most this many tolls for a room. Chosen on the draws.
pub(crate) const FOUND_IN_ROOM: usize = 3;

// Made timetables.

/// No timetables are made of a problem whose ships rule out more slots for each other than this, counted once for each rule:
/// each timetable would take too long. A limit for hostile problems; nothing is known of other values.
pub(crate) const MOST_EFFORT: u64 = 200_000;

/// A slot for which a job holds its tugs counts as much as this many. An estimate, which nothing was chosen on.
pub(crate) const TUGS: u64 = 16;

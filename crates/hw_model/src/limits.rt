//! The limits of a flat problem.

/// Ships of a problem, and jobs of a rule on tugs.
pub const MOST_SHIPS: u32 = 40;

/// Slots in which ships sail, and the gap of a precedence.
pub const MOST_SLOTS: u32 = 512;

/// Rules of a problem.
pub const MOST_RULES: usize = 4_000;

/// A ship's value in a slot.
pub const MOST_VALUE: u64 = 1_000_000_000_000;

/// Holes of a pair.
pub const MOST_HOLES: usize = 8;

/// How far from 0 a hole's bounds are.
pub const MOST_DIFFERENCE: u32 = 1_023;

/// Tugs of a job.
pub const MOST_TUGS: u32 = 64;

/// Tugs of a rule's fleet in a slot: with as many no job ever lacks one.
pub const MOST_FLEET: u32 = MOST_SHIPS * MOST_TUGS;

/// Tugs of a rule's fleet in a text of the first two versions, whose fleets have no hours.
pub const MOST_PLAIN_FLEET: u32 = 1_000;

/// Slots for which a job holds its tugs.
pub const MOST_HOLD: u32 = 1_024;

/// The cargo of a timetable.
pub const MOST_CARGO: u64 = MOST_SHIPS as u64 * MOST_VALUE;

/// Tugs that the jobs of a rule hold in a slot.
pub const MOST_HELD: u32 = MOST_SHIPS * MOST_TUGS;

//! The settings of the search for prices, and what each was chosen on. *Of the plain program* and *the draws* mean what they
//! mean in `settings.rt` of `hw_price_dual`, which has the settings of the prices themselves.

use hw_price_dual::FULL_PACE;

// When the adviser speaks.

/// It says nothing before this many lemmas, so that easy problems stay as fast as they are. Of the plain program.
pub(crate) const FIRST: u32 = 32;

/// Of new prices that refute no room, how many ends of ranges they must cut to be worth an answer. Of the plain program.
pub(crate) const CUTS: usize = 4;

// The whole room.

/// Steps of the last look at the whole room. Nothing is known of what it was chosen on.
pub(crate) const LAST_STEPS: u32 = 1_000;

/// How fast they begin. Nothing is known of what it was chosen on.
pub(crate) const LAST_PACE: i64 = FULL_PACE / 8;

// Rooms of the search.

/// Steps in a room, from the last prices. 50 and 120 were tried on four of the large days of `bench/made`, demo-5-24-192
/// among them, and on tight-1-12-96, demo-11-12-96 and demo-3-16-36.
pub(crate) const ROOM_STEPS: u32 = 120;

/// Steps in a room where there is no best. Nothing is known of what it was chosen on.
pub(crate) const EXPLORED: u32 = 10;

/// One in this many rooms is looked through for tolls, if it is no deeper than `DEEPEST`. Chosen on the draws: more tolls
/// save lemmas and cost more time than they save.
pub(crate) const SEARCHED: u32 = 16;

/// The deepest level at which a room is looked through for tolls. Chosen on the draws.
pub(crate) const DEEPEST: u32 = 6;

/// No room is looked through once there are this many candidates or declared tolls: a limit, far below that of a
/// certificate, which small problems don't reach.
pub(crate) const ENOUGH: usize = 3_000;

/// After this many rooms the candidates that had no price in any of them are dropped. Chosen on the draws.
pub(crate) const IDLE: u32 = 32;

/// In one of this many rooms timetables are made. Nothing is known of other values.
pub(crate) const MADE: u32 = 8;

// Seeds but 0.

/// Prices are moved for at least this many steps in a room, and for fewer than `MORE_STEPS` more. With both, eight seeds
/// were run on demo-11-12-96, tight-1-16-96 and top-106-14-96 (docs/BENCHMARKS.md); nothing is known of other values.
pub(crate) const FEWEST_STEPS: u32 = 60;

pub(crate) const MORE_STEPS: u32 = 128;

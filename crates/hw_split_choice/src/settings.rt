//! The settings of splits, and what each was chosen on.

/// At most this many forks of a room are compared. Of a sketch of splits; nothing is known of other values.
pub(crate) const FORKS: usize = 8;

/// Steps in a room in which the chosen slots are counted before it is split. Nothing is known of other values.
pub(crate) const COUNTED: u32 = 200;

/// Steps in each side of a fork: as many as in a room of a search (`hw_price_adviser`). Nothing is known of other values.
pub(crate) const SIDE_STEPS: u32 = 120;

/// How many tolls are expected for each one that has a price in a part, since parts look for more of them. The certificates of the
/// parts of tight-1-16-96 (8 parts), tight-1-20-144 (16), demo-3-16-36 (8) and top-1-20-144 (16) declare 3.0, 2.6, 3.4 and 1.5 together.
pub(crate) const TOLLS_FOR_ONE: u64 = 3;

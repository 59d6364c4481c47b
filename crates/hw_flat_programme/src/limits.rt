//! How large a programme may be.

use hw_model::{MOST_DIFFERENCE, MOST_HOLES, MOST_SHIPS, MOST_SLOTS, MOST_TUGS};

/// Ships of a group.
pub const MOST_GROUP: usize = MOST_SHIPS as usize;

/// Spans of a row: two windows of a hole, and one for each ship that may be added to them.
pub const MOST_SPANS: usize = MOST_GROUP + 2;

/// The weight of all terms of a span.
pub const MOST_SPAN_WEIGHT: u32 = MOST_TUGS * (MOST_SLOTS + 1);

/// Windows of a hole.
pub const MOST_WINDOWS: u32 = MOST_SLOTS + MOST_DIFFERENCE;

/// Rows of a rule.
pub const MOST_RULE_ROWS: u32 = MOST_HOLES as u32 * MOST_WINDOWS;

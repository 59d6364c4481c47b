//! What a walk finds.

use hw_flat::Timetable;

/// What a walk through the lists of slots finds.
///
/// `cargo` is in tenths of a tonne.
#[derive(Drop)]
pub enum Walked {
    /// All lists were looked at: the first permitted one of greatest cargo.
    Best { table: Timetable, cargo: u64 },
    /// All lists were looked at, and none is permitted.
    NoneLeft,
    /// The budget ended before the lists did: the first permitted one of greatest cargo among
    /// those that were looked at, if there is one.
    Spent { table: Option<Timetable> },
}

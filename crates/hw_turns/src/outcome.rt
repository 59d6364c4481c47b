//! How a crew ends.

use hw_flat::Timetable;

/// How a crew ends. `table` is the best timetable found, if there is one.
#[derive(Drop)]
pub enum Crewed {
    /// No permitted timetable carries more than `cargo`, in tenths of a tonne.
    Optimal { table: Timetable, cargo: u64 },
    /// No timetable is permitted.
    Infeasible,
    /// As many lemmas as the budget were handed on.
    Spent { table: Option<Timetable> },
    /// Memory ran out. What was handed on before stays.
    NoMemory { table: Option<Timetable> },
    /// The log didn't take a line.
    LogFailed,
}

//! How a search decides, and the answers of settling, of a turn and of a whole solution.

use hw_flat::Timetable;
use hw_trail_laws::Why;

/// How a search decides in a quiet room.
#[derive(Clone, Copy)]
pub enum Branching {
    /// The first of the ships with several slots left whose range has the greatest value. It sails
    /// in the first slot of that value or later, or in just that slot if it is the ship's lowest.
    Greatest,
    /// The first ship with several slots left sails in its lowest slot.
    Earliest,
    /// The first ship with several slots left sails in its highest slot.
    Latest,
}

/// How settling ends: every source and every stored lemma is quiet, or a clause has no literal left.
#[derive(Drop)]
pub enum Settled {
    Quiet,
    /// The clause has no literal left: a stored lemma, or one that its source refutes when denied.
    Conflict(Why),
}

/// What a turn did. After the last three the search is over.
#[derive(Clone, Copy)]
pub enum Turn {
    /// All was quiet, and a literal was decided.
    Decided,
    /// All was quiet at a point: its timetable was written, and is the best so far.
    Better,
    /// A conflict was analysed: its lemma was written and stored, and the search went back.
    Lemma,
    /// A line without literals was written: nothing beats the best timetable so far.
    Ended,
    /// Memory ran out.
    NoMemory,
    /// The log didn't take a line.
    LogFailed,
}

/// What the call for a lower bound did. After the last two the search is over.
#[derive(Clone, Copy)]
pub enum Bounded {
    /// A lower bound was written.
    Lower,
    /// There was none to write.
    Same,
    /// Memory ran out.
    NoMemory,
    /// The log didn't take a line.
    LogFailed,
}

/// What the call for a timetable that an adviser proposes did. After the last two the search is over.
#[derive(Clone, Copy)]
pub enum Proposed {
    /// It is permitted and beats the best: it was written, and is the best so far.
    Better,
    /// There was none, or not such a one.
    Same,
    /// Memory ran out.
    NoMemory,
    /// The log didn't take a line.
    LogFailed,
}

/// What the call that closes a search by its own bound did. After the last three the search is over.
#[derive(Clone, Copy)]
pub enum Closed {
    /// The best timetable carries less than the last bound, or one of the two is missing.
    Open,
    /// It carries as much: a line without literals was written.
    Ended,
    /// Memory ran out.
    NoMemory,
    /// The log didn't take a line.
    LogFailed,
}

/// How solving ends. `table` is the best timetable found, if there is one.
#[derive(Debug, Drop)]
pub enum Solved {
    /// No permitted timetable carries more than `cargo`, in tenths of a tonne.
    Optimal { table: Timetable, cargo: u64 },
    /// No timetable is permitted.
    Infeasible,
    /// As many lemmas as the budget were written.
    Unfinished { table: Option<Timetable> },
    /// Memory ran out.
    NoMemory { table: Option<Timetable> },
    /// The log didn't take a line.
    LogFailed,
}

/// How solving with advice ends.
#[derive(Drop)]
pub struct Proved {
    pub solved: Solved,
    /// In tenths of a tonne: no permitted timetable carries more.
    pub bound: Option<u64>,
}

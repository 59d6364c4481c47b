//! Why a line isn't valid, and what valid lines prove.

/// Why a line isn't valid after those before it.
#[derive(Clone, Copy, Debug)]
pub enum CheckWord {
    /// An earlier clause line has no literals.
    Ended,
    /// The timetable isn't permitted.
    Table,
    /// The timetable's cargo isn't above the best.
    Worse,
    /// The source, or the prices in force, don't refute the denied room of the clause, or the prices
    /// in force don't show the bound.
    Refute,
    /// This is the first hint whose number isn't live.
    Hint,
    /// The clause of this hint has several open literals and no true one when its turn comes.
    Loose,
    /// The hints end without a conflict.
    Conflict,
    /// The line would have a number above 4,294,967,295, or declare toll 10,001.
    Many,
    /// This is the first number to be deleted that isn't live.
    Dead,
    /// What the line declares isn't a toll of the problem.
    Toll,
    /// This is the first number of a toll that no earlier line declares, or no prices are in force.
    Due,
    /// The bound isn't below the one before it.
    Looser,
}

/// The word of a line that isn't valid, with the number that it names.
#[derive(Clone, Copy, Debug)]
pub struct Refusal {
    pub word: CheckWord,
    pub hint: Option<u32>,
}

/// What valid lines prove. Cargo is in tenths of a tonne.
#[derive(Clone, Copy, Debug, PartialEq, Eq)]
pub enum Verdict {
    /// The last timetable is a best one, with this cargo.
    Optimal(u64),
    /// No timetable is permitted.
    Infeasible,
    /// Neither yet; the cargo of the last timetable, if there is one.
    Unfinished(Option<u64>),
}

//! Which search is run.

ghost use Rattle.std.specs.Prelude.{◌≡◌};
ghost use Rattle.hw_command_search.specs.Searchers.{searcher_of};

use crate::order::Order;
use hw_cert::Version;

/// Which search is run.
#[derive(Clone, Copy)]
pub enum Search {
    /// One searcher.
    Solve,
    /// One searcher that prices on tolls advise. Its certificate is of version 3, and has bounds. The seed
    /// chooses one of many ways through the search, of which 0 is the usual one.
    Prove { seed: u32 },
    /// Searchers with branching rules of their own, which take turns in this order and share the best
    /// timetable.
    Crew { order: Order },
}

impl Search {
    /// The version of its certificates.
    pub(crate) fn version(&self) -> Version
        ensures { result ≡ (searcher_of self.now).version }
    {
        match self {
            Search::Solve | Search::Crew { .. } => Version::Two,
            Search::Prove { .. } => Version::Three,
        }
    }
}

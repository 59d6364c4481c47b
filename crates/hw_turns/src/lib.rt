//! Several searchers that take turns and write one certificate.
//!
//! Each searcher writes to a log of its own in memory. Right after a turn, what it wrote is handed on to
//! the shared log, with shared numbers instead of the searcher's own.
#![tactic(auto)]

mod board;
mod crewing;
mod handing;
mod laws;
mod member;
mod outcome;
mod relaying;

pub use crewing::crew;
pub use laws::lemma_within;
pub use member::is_above;
pub use outcome::Crewed;

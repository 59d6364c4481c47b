//! `solve`, `prove` and `crew` of a flat text, of a port and of the repair of either: one command over
//! any subject and any search. `resume`, a search of any subject that goes on from a certificate. And
//! `demo`, a problem that is drawn, solved and checked in memory.
//!
//! A search writes its lines to Proof as it finds them, and its answer is reported by the subject's own
//! values. What is promised of the lines differs from search to search, and what the answer says is the
//! same of all of them.
#![tactic(auto)]

mod command;
mod demonstration;
mod finding;
mod laws;
mod order;
mod reporting;
mod resuming;
mod searcher;
mod searching;

pub use command::search_subject;
pub use demonstration::{Draw, demo};
pub use laws::cut_rows;
pub use order::{MOST_TURNS, Order};
pub use resuming::resume_subject;
pub use searcher::Search;

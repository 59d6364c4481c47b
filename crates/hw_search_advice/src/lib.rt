//! What an adviser may tell a search whose sources and lemmas are quiet: a clause of prices, a bound on
//! the cargo, a timetable, or a literal to decide.
//!
//! The trait's clauses say that each clause and each bound is right, whoever answers. Of a timetable they
//! say nothing: the search tests it.
#![tactic(auto)]

mod adviser;
mod no_advice;
mod stop;

pub use adviser::{Advice, Adviser, Bounding, Scene, Standing};
pub use no_advice::NoAdvice;
pub use stop::AdviceStop;

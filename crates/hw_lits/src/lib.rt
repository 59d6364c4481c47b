//! Clauses in normal form, and what a room says of them: truth, cuts, denied rooms and one step
//! of a replay.
#![tactic(auto)]

mod clause;
mod cutting;
mod denying;
mod fault;
mod form;
mod found;
mod laws;
mod spelling;
mod stepping;

pub use clause::{Clause, MOST_LITERALS};
pub use cutting::{cut, is_lit_of, truth};
pub use denying::deny;
pub use fault::ClauseFault;
pub use found::Found;
pub use hw_model::{Lit, LitTruth, Narrowed};
pub use hw_model_laws::{
    cut_is_room, cut_room, denied_is_room, denied_room, sound_replay, truth_in_room,
};
pub use laws::{clause_ascends, clause_is_normal, one_of_a_side, step_tells};
pub use spelling::clause_of_room;
pub use stepping::{narrow, narrow_lits, narrowing, narrowing_lits};

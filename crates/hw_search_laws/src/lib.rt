//! The theory of what a search writes: its state as contracts see it, when a log fits that state,
//! and what settling, a turn and a whole solution do to both.
//!
//! Beside the types of the answers there is no code: `hw_search` is proved against it. Each law is a
//! public function without a body whose clause is the statement.
#![tactic(auto)]

mod laws;
mod limits;
mod outcome;

pub use laws::{
    bound_line, branch_open, conflict_line, delete_line, end_means, few_new, few_numbers,
    few_restarts, few_stored, few_written, first_lubys, fit_kept, heeds_on, heeds_one, last_turn,
    lemma_turn, limits_are, live_bound, live_throughout, luby_rule, new_search, part_written,
    plain_turn, point_table, priced_line, prices_true, proving_meets, reason_line, reason_rises,
    search_kept, solved_sound, sources_once, stop_kept, table_line, tariff_line, toll_line,
    turn_live,
};
pub use limits::{MOST_BUDGET, MOST_PRICED};
pub use outcome::{Bounded, Branching, Closed, Proposed, Proved, Settled, Solved, Turn};

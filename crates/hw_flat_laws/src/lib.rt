//! What the refusal of a flat text means, and worked rows of the definitions of texts, flat problems,
//! rooms, clauses and rules.
//!
//! Each law is a public function without a body whose clause is the statement.
#![tactic(auto)]

mod laws;
mod worked;

pub use laws::{
    bad_hours_rows, bad_line_rows, few_steps, first_bad_line, plain_tugs_as_before, wanted_refuses,
};
pub use worked::{
    clause_rows, number_rows, problem_rows, room_rows, rule_rows, setting_rows, word_rows,
};

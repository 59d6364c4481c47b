//! The lines of a certificate without their text: when a line is valid after others, why it isn't,
//! what valid lines prove, and which lines are new and lean.
#![tactic(auto)]

mod check;
mod laws;
mod line;

pub use check::{CheckWord, Refusal, Verdict};
pub use laws::{
    bound_pushed, clause_pushed, closed_ends, deletion_pushed, kept_live, kept_numbers,
    kept_pushed, kept_verdict, lines_pushed, price_line_rows, refusal_rows, table_pushed,
    tariff_pushed, toll_pushed, valid_deletes, valid_tolls,
};
pub use line::{Hints, Line};

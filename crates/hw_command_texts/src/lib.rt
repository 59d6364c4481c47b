//! Commands whose report is a text that is a function of what was read: when each ship of a port may
//! sail, its restrictions in words, its flat text, the linear programme of a problem, the table of the
//! plan that a certificate shows, what a repair makes of each ship of a plan, and why the inputs of a
//! port are refused or what is likely meant otherwise in them.
//!
//! A flat text and the restrictions are made in memory; the others are sent piece by piece, and never
//! held whole. A certificate is checked to its end before the first byte.
#![tactic(auto)]

mod explaining;
mod laws;
mod lint;
mod listing;
mod listings;
mod repair_laws;
mod tables;
mod telling;

pub use explaining::explain_repair;
pub use laws::{
    explains_as_listed, flattens_as_listed, one_listing, one_table, tables_as_verified,
};
pub use lint::lint_port;
pub use listings::{explain_port, flatten_port, list_model, list_windows};
pub use repair_laws::{explained_as_verified, one_explanation};
pub use tables::list_table;

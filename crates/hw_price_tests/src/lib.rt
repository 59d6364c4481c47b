//! Exact tests of tolls and of prices on them.
//!
//! They say whether a toll is one of a problem, whether prices leave a room no more than the best, and
//! what the whole problem carries at most under them. `PriceBook` keeps what a certificate has declared
//! so far, `InForce` a tariff charged once for many rooms. The parts are public too, each equal to its
//! definition, for a search that keeps figures.
#![tactic(auto)]

mod balancing;
mod by_pair;
mod charging;
mod costs;
mod fitting;
mod holding;
mod in_force;
mod judging;
mod laws;
mod price_book;
mod refuting;
mod taking;
mod weighing;

pub use balancing::{best_charged, better, charged_balances};
pub use by_pair::RulesByPair;
pub use charging::charge;
pub use fitting::tariff_fits;
pub use in_force::InForce;
pub use judging::{is_toll, is_toll_by};
pub use laws::{charged_stays, named_or_alone};
pub use price_book::PriceBook;
pub use refuting::charged_refute;
pub use taking::{allowance_of, capacity_of};
pub use weighing::heaviest;

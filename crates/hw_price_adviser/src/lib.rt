//! Advises a search by prices on tolls, which `hw_price_dual` finds: which rooms they refute, which ends of ranges they cut, what the
//! whole problem earns under them, and by which ship to decide.
//!
//! In the field's words: Lagrangian relaxation within a search by branching. A room is pruned by its bound, and slots are
//! fixed by reduced profits; the clause of either is an explanation, made as general as the bound allows. The multipliers of
//! one room are the first ones of the next. See A. M. Geoffrion, "Lagrangean Relaxation for Integer Programming", Mathematical
//! Programming Study 2, 1974.
//!
//! Nothing is promised of the numbers on the way. Each answer has passed the exact tests.
#![tactic(auto)]

mod adviser;
mod answering;
mod cuts;
mod exact;
mod loosening;
mod preferring;
mod proposals;
mod relaxation;
mod settings;
mod variation;

pub use adviser::PricingAdviser;

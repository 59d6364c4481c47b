//! `check`, `verify` and `renew` of a certificate of any subject: of a flat text, of a port, or of the
//! repair of either by a plan.
//!
//! The lines are checked one by one. To renew them all are held in memory; otherwise only those are
//! held that a later line may name.
#![tactic(auto)]

mod checking;
mod laws;
mod renewing;

pub use checking::{check, verify};
pub use laws::renewed_as_checked;
pub use renewing::renew;

//! The checker of certificates: it takes a problem's lines one by one, exactly those that are valid.
//!
//! It keeps the clauses that may still be named, the best cargo, whether a clause line had no
//! literals, the tolls, the tariff in force and the last bound. Validity, verdict and bound need
//! nothing else of the lines before. Lines that were kept beside it can be renewed, so that each
//! clause is deleted as soon as it is due.
#![tactic(auto)]

mod checker;
mod clause_list;
mod place;
mod pricing;
mod refusing;
mod renewing;
mod space;
mod stop;
mod stored;

pub use checker::Checker;
pub use hw_cert_laws::{
    refusal_computed, renewed_valid, sound_lines, sound_verdict, valid_numbered,
};
pub use hw_cert_lines::{CheckWord, Refusal, Verdict, kept_pushed, kept_verdict};
pub use renewing::renewed;
pub use space::Space;
pub use stop::CheckStop;

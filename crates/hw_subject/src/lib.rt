//! What a command is about, a flat text, a port or the repair of either by a plan, as one value: how it
//! is read, and what is said of it and of a certificate of it.
#![tactic(auto)]

mod laws;
mod plan_input;
mod source;
mod subject;

pub use laws::{certificates_decide, subjects_decided, subjects_modelled, texts_decide};
pub use plan_input::Repair;
pub use source::{Named, Source};
pub use subject::{Given, Subject, read_subject};

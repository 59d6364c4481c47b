//! `audit port`: a port's plan is watched through the events of the day; and `carry port`: the plan of a
//! repair that they give.
//!
//! All inputs are read and all events tried before the first line is sent. Then the events are
//! applied again from the plan on, and after each one the broken restrictions are sent.
#![tactic(auto)]

mod auditing;
mod carrying;
mod day;
mod laws;
mod reading;
mod sending;
mod trying;

pub use auditing::audit_port;
pub use carrying::carry_port;
pub use laws::{one_audit, one_carry};

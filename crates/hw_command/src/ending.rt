//! How the work of a command ends that reads a certificate and makes Proof.

use crate::outcome::{CertOutcome, CertStop};

/// How the work ends between the inputs of a command and its reports.
#[derive(Drop)]
pub enum Ending<T> {
    /// Lines aren't all taken, or no answer was found: why, told as of a certificate. Proof wasn't made.
    Stopped(Result<CertOutcome, CertStop>),
    /// What is told of the text that was sent to Proof.
    Sent(T),
    /// A make or a write of Proof failed.
    WriteFailed,
}

//! The outcome of one run.

use crate::shown::put_lines;
use hw_desk::{CalmDesk, MemoryDesk, Tray};
use hw_text::put_number;
use std::alloc::{AllocError, Global};

/// The exit code of a run, and the bytes that it sent to each tray.
#[derive(Drop)]
pub struct Outcome {
    code: u8,
    report: Vec<u8>,
    proof: Vec<u8>,
}

impl Outcome {
    /// What was sent to a desk whose calls may fail.
    pub fn of_memory(alloc: Global, code: u8, desk: &MemoryDesk) -> Result<Outcome, AllocError> {
        Ok(Outcome {
            code,
            report: Vec::from_slice(alloc, desk.sent(Tray::Report))?,
            proof: Vec::from_slice(alloc, desk.sent(Tray::Proof))?,
        })
    }

    /// What was sent to a desk whose calls never fail; no bytes where there were too many to tell.
    pub fn of_calm(alloc: Global, code: u8, desk: &CalmDesk) -> Result<Outcome, AllocError> {
        Ok(Outcome {
            code,
            report: Vec::from_slice(alloc, desk.sent(Tray::Report).unwrap_or(&[]))?,
            proof: Vec::from_slice(alloc, desk.sent(Tray::Proof).unwrap_or(&[]))?,
        })
    }

    /// Whether two runs have the same outcome, Proof aside where that is wanted.
    pub fn is_same(&self, other: &Outcome, brief: bool) -> bool {
        let same = self.code == other.code && self.report == other.report;
        same && (brief || self.proof == other.proof)
    }

    /// What was sent to Proof, and the run is gone.
    pub fn into_proof(self) -> Vec<u8> {
        self.proof
    }

    /// Appends the lines that are printed for the run. If `brief` is given, those of Proof are left out,
    /// and at most this many of the report are printed.
    pub fn put(&self, brief: Option<u32>, out: &mut Vec<u8>) -> Result<(), AllocError> {
        put_lines(out, &self.report, brief.unwrap_or(u32::MAX))?;
        out.extend_from_slice(b"status ")?;
        put_number(out, u64::from(self.code))?;
        if brief.is_some() {
            return out.push(b'\n').map_err(AllocError::from);
        }
        out.extend_from_slice(b" proof ")?;
        put_number(out, self.proof.len() as u64)?;
        out.push(b'\n')?;
        put_lines(out, &self.proof, u32::MAX)
    }
}

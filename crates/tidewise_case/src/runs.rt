//! The runs of one line `run`.

use crate::outcome::Outcome;
use hw_desk::NamedBytes;
use hw_text::put_number;
use std::alloc::{AllocError, Global};

/// Runs, numbered from 1, of which neighbours with the same outcome are printed once.
#[derive(Drop)]
pub struct Runs {
    several: bool,
    brief: Option<u32>,
    count: u64,
    first: u64,
    last: Option<Outcome>,
}

impl Runs {
    /// No runs yet. Their numbers are printed where there may be several. If `brief` is given, what they
    /// sent to Proof is not printed, and at most this many lines of each report are.
    pub fn new(several: bool, brief: Option<u32>) -> Runs {
        Runs {
            several,
            brief,
            count: 0,
            first: 1,
            last: None,
        }
    }

    /// Adds a run, and appends the ones before it if their outcome is another one.
    pub fn add(&mut self, outcome: Outcome, out: &mut Vec<u8>) -> Result<(), AllocError> {
        let same = match &self.last {
            Some(last) => last.is_same(&outcome, self.brief.is_some()),
            None => true,
        };
        if !same {
            self.put(out)?;
            self.first = self.count.saturating_add(1);
        }
        self.count = self.count.saturating_add(1);
        self.last = Some(outcome);
        Ok(())
    }

    /// What the last run sent to Proof, under a name if there is one.
    pub fn into_proof(
        self,
        alloc: Global,
        name: Option<&str>,
    ) -> Result<Option<NamedBytes>, AllocError> {
        match (self.last, name) {
            (Some(last), Some(name)) => Ok(Some(NamedBytes {
                name: String::from_str(alloc, name)?,
                bytes: last.into_proof(),
            })),
            _ => Ok(None),
        }
    }

    /// Appends the outcome of the last runs.
    pub fn put(&self, out: &mut Vec<u8>) -> Result<(), AllocError> {
        if self.several {
            out.extend_from_slice(b"runs ")?;
            put_number(out, self.first)?;
            out.extend_from_slice(b" to ")?;
            put_number(out, self.count)?;
            out.push(b'\n')?;
        }
        match &self.last {
            Some(last) => last.put(self.brief, out),
            None => Ok(()),
        }
    }
}

//! A case: its name, its desk, and the outcomes of its runs beside what is wanted of them.

use crate::compared::Compared;
use crate::runner::Runner;
use crate::setup::Setup;
use hw_desk::NoMemory;
use std::alloc::{AllocError, Global};

/// A case, as far as it was read.
#[derive(Drop)]
pub struct Case {
    name: String,
    setup: Setup,
    /// The last run, until a line comes that isn't wanted of it.
    run: Option<Compared>,
    has_run: bool,
    /// What is printed for the runs whose outcome is not the one that is wanted.
    differences: Vec<u8>,
}

impl Case {
    /// A case whose desk holds nothing.
    pub fn new(alloc: Global, name: String) -> Case {
        Case {
            name,
            setup: Setup::new(alloc),
            run: None,
            has_run: false,
            differences: Vec::new(alloc),
        }
    }

    /// Takes a line of the case, with its number in the file, and says whether it has a form.
    pub fn take<R: Runner>(
        &mut self,
        alloc: Global,
        number: u64,
        line: &str,
    ) -> Result<bool, NoMemory> {
        if let Some(run) = &mut self.run
            && run.want(line)?
        {
            return Ok(true);
        }
        self.end_run(alloc)?;
        let (key, text) = match line.split_once(' ') {
            Some((key, text)) => (key, Some(text)),
            None => (line, None),
        };
        match key {
            "run" => {
                self.begin_run::<R>(alloc, number, line, text)?;
                Ok(true)
            }
            "then" => {
                let is_kept = self.setup.keep_proof()?;
                self.begin_run::<R>(alloc, number, line, text)?;
                Ok(is_kept)
            }
            _ => Ok(self.setup.take(alloc, line)?),
        }
    }

    fn begin_run<R: Runner>(
        &mut self,
        alloc: Global,
        number: u64,
        line: &str,
        text: Option<&str>,
    ) -> Result<(), NoMemory> {
        let mut came = Vec::new(alloc);
        self.setup.run_all::<R>(alloc, text, &mut came)?;
        self.has_run = true;
        self.run = Some(Compared::new(alloc, number, line, came)?);
        Ok(())
    }

    fn end_run(&mut self, alloc: Global) -> Result<(), AllocError> {
        match self.run.take() {
            Some(run) => run.put_difference(alloc, &mut self.differences),
            None => Ok(()),
        }
    }

    /// Appends what is printed for the case, which is then over.
    pub fn finish(mut self, alloc: Global, out: &mut Vec<u8>) -> Result<(), AllocError> {
        self.end_run(alloc)?;
        let verdict: &[u8] = if !self.has_run {
            b"no run "
        } else if self.differences.is_empty() {
            b"ok "
        } else {
            b"differs "
        };
        out.extend_from_slice(verdict)?;
        out.extend_from_slice(self.name.as_str().as_bytes())?;
        out.push(b'\n')?;
        out.extend_from_slice(&self.differences)
    }
}

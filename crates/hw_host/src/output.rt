//! Standard output.

ghost use Rattle.std.specs.Prelude.{◌≡◌, ◌↔◌, ◌≤◌, ◌<◌, length, IfOk, IsTrue, OnErr, OnOk};
ghost use Rattle.hw_desk.specs.State.{Rose};
ghost use Rattle.hw_host.specs.Opened.{GoesTo};

use crate::files::{FileId, count_write, id_of};
use hw_desk::{DeskFailed, failed};
use std::fs::File;
use std::io::Write;
use std::{fs, io};

/// Whether the numbers of the standard streams are kept from files that are opened later.
///
/// Where a standard stream is closed, the next file that is opened takes its number, and what is meant
/// for standard output would go there. So `/` is opened three times first and kept open: it always
/// exists and can't be written.
#[derive(Drop)]
pub enum Output {
    Kept {
        first: File,
        second: File,
        third: File,
        /// The ordinary file that standard output goes to; none where it goes elsewhere, or the system
        /// doesn't tell.
        file: Option<FileId>,
    },
    /// One of them couldn't be opened, so nothing is written.
    Lost,
}

/// Pipes, terminals and devices aren't ordinary files: what is written there is written over nothing.
fn output_file(rt: &HostRuntime) -> Option<FileId> {
    match fs::metadata(rt, "/dev/stdout") {
        Ok(metadata) if metadata.is_file() => Some(id_of(&metadata)),
        _ => None,
    }
}

impl Output {
    pub fn new(rt: &HostRuntime) -> Output {
        match (fs::open(rt, "/"), fs::open(rt, "/"), fs::open(rt, "/")) {
            (Ok(first), Ok(second), Ok(third)) => Output::Kept {
                first,
                second,
                third,
                file: output_file(rt),
            },
            _ => Output::Lost,
        }
    }

    /// Whether standard output goes to this file of the system, as far as that is known.
    pub fn goes_to(&self, id: FileId) -> bool
        ensures { IsTrue result ↔ GoesTo self.now id }
    {
        match self {
            Output::Kept {
                file: Some(own),
                ..
            } => *own == id,
            Output::Kept { file: None, .. } | Output::Lost => false,
        }
    }

    /// Writes some bytes to standard output, or counts a fault.
    pub fn write(
        &self,
        rt: &HostRuntime,
        bytes: &[u8],
        faults: &mut u64,
    ) -> Result<usize, DeskFailed>
        ensures bound { IfOk result (λ n. (0 < n) × (n ≤ length bytes.now)) }
        ensures later { faults.old ≤ faults.new }
        ensures cause { OnErr result (Rose faults.old faults.new) }
        ensures kept { OnOk result (faults.new ≡ faults.old) }
    {
        match self {
            Output::Kept { .. } => {
                let answer = io::writer(rt).write(bytes);
                count_write(answer, faults)
            }
            Output::Lost => Err(failed(faults)),
        }
    }
}

//! A log whose lines stay in memory.

ghost use Rattle.std.specs.Prelude.{◌≡◌, []};

use crate::{Log, LogStop};
use hw_cert_lines::Line;
use std::alloc::Global;
use std::marker::Model;

/// A log that keeps the lines in memory. It fails only if memory runs out.
#[derive(Drop)]
pub struct MemoryLog {
    alloc: Global,
    lines: Vec<Line>,
}

impl Model for MemoryLog {
    ghost use Rattle.std.specs.Prelude.{List};
    ghost use Rattle.hw_cert_lines.specs.declared.line.Line.{Line as LineOf};

    ghost Value = { List LineOf };

    ghost view = { λ log. log.lines.items };
}

impl MemoryLog {
    /// A log without lines. It takes no memory.
    pub fn new(alloc: Global) -> MemoryLog
        ensures { result ≡ [] }
    {
        MemoryLog {
            alloc,
            lines: Vec::new(alloc),
        }
    }

    /// The lines.
    pub fn lines(&self) -> &[Line]
        ensures { result.now ≡ self.now }
    {
        &self.lines
    }

    /// The lines, and the log is gone.
    pub fn into_lines(self) -> Vec<Line>
        ensures { result.items ≡ self }
    {
        self.lines
    }
}

impl Log for MemoryLog {
    ghost use Rattle.hw_cert.specs.Logs.{memory_log, unanchored};

    ghost state = { memory_log };

    ghost anchor = { λ _. unanchored };

    fn line(&mut self, line: &Line) -> Result<(), LogStop> {
        let Ok(kept) = line.copy(self.alloc) else {
            return Err(LogStop::NoMemory);
        };
        if self.lines.push(kept).is_err() {
            return Err(LogStop::NoMemory);
        }
        Ok(())
    }
}

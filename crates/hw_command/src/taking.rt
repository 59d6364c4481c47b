//! What is kept of a certificate's lines while it is read.

ghost use Rattle.std.specs.Prelude.{◌∷◌, ◌++◌, [], List, OnOk};
ghost use Rattle.hw_cert_lines.specs.declared.line.Line.{Line};
ghost use Rattle.hw_command.specs.Readings.{KeepsLines, KeepsNone, KeepsTable};

use hw_cert::Line;
use hw_flat::Timetable;
use std::alloc::AllocError;

/// Takes the lines of a certificate one after another, and keeps what is wanted of them.
pub trait LineTaker: Drop {
    /// what is kept of these lines
    ghost keeps: { Self → List Line → Type 0 };

    /// Takes one more line. An error says that memory ran out.
    fn take(&mut self, line: Line) -> Result<(), AllocError>
        ensures { OnOk result ((all : List Line) → keeps self.old all → keeps self.new (all ++ line ∷ [])) };
}

/// Keeps nothing.
impl LineTaker for () {
    ghost keeps = { KeepsNone };

    fn take(&mut self, _line: Line) -> Result<(), AllocError> {
        Ok(())
    }
}

/// Keeps all lines.
impl LineTaker for Vec<Line> {
    ghost keeps = { KeepsLines };

    fn take(&mut self, line: Line) -> Result<(), AllocError> {
        self.push(line)?;
        Ok(())
    }
}

/// The timetable of the last table line, if there is one.
#[derive(Drop)]
pub struct LastTable(pub Option<Timetable>);

impl LineTaker for LastTable {
    ghost keeps = { KeepsTable };

    fn take(&mut self, line: Line) -> Result<(), AllocError> {
        if let Line::Table(table) = line {
            self.0 = Some(table);
        }
        Ok(())
    }
}

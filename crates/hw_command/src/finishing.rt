//! The end of a run: its report is sent.

ghost use Rattle.std.specs.Prelude.{◌∷◌, []};
ghost use Rattle.hw_report.specs.Printing.{CanPrint};
ghost use Rattle.hw_report.specs.Seen.{report_seen};
ghost use Rattle.hw_command.specs.Ends.{Ends};

use crate::status::{Status, status_of};
use hw_desk::Desk;
use hw_report::{Report, print_report};

/// Sends the report. Returns its status, or `WriteFault` if a write failed.
pub fn finish<D: Desk>(desk: &mut D, report: &Report) -> Status
    requires { CanPrint (report_seen report.now) }
    ensures { Ends (report_seen report.now ∷ []) (D.state desk.old) (D.state desk.new) result }
{
    match print_report(desk, report) {
        Ok(()) => status_of(report),
        Err(_) => Status::WriteFault,
    }
}

//! The picture of a clash is sent.

ghost use Rattle.std.specs.Prelude.{◌≡◌, ◌∷◌, [], IfOk, map};
ghost use Rattle.hw_desk.specs.Whole.{SendsText};
ghost use Rattle.hw_desk.specs.Writers.{Puts};
ghost use Rattle.hw_cert_lines.specs.declared.check.Verdict.TheVariants.{Infeasible};
ghost use Rattle.hw_report.specs.Printing.{AreNamesOf};
ghost use Rattle.hw_report.specs.Reports.{picture};
ghost use Rattle.hw_command.specs.Ends.{Ends};
ghost use Rattle.hw_subject.specs.Reading.{naming_of};
ghost use Rattle.hw_command_chart.specs.ClashCharts.{kept_drawn, marked_clash, marks_in};
ghost use Rattle.hw_command_chart.specs.ClashDrawing.{AreLines, HasColumns, clash_chart_report};
ghost use Rattle.hw_command_chart.specs.Drawing.{EndsUnlessMemory};

use hw_cert::Verdict;
use hw_chart_clash::{Mark, marks_of, put_clash_picture};
use hw_clash::ClashText;
use hw_command::{CertOutcome, Status, finish};
use hw_command_clash::part_report;
use hw_desk::{Desk, DeskFailed, Tray, TrayWriter, Writer};
use hw_flat::Timetable;
use hw_model::NoMemory;
use hw_report::Report;
use hw_subject::Named;
use std::alloc::Global;

/// Sends the picture of a clash that holds, and otherwise the report of its certificate.
pub(crate) fn draw_checked<D: Desk>(
    alloc: Global,
    desk: &mut D,
    named: &Named,
    clash: &ClashText,
    outcome: CertOutcome,
) -> Status
    requires lines { AreLines (naming_of named.now) clash.now.kept }
    requires columns { HasColumns (naming_of named.now) }
    ensures { EndsUnlessMemory (clash_chart_report (naming_of named.now) clash.now outcome) (D.state desk.old) (D.state desk.new) result }
{
    match outcome {
        CertOutcome::Shows(Verdict::Infeasible) => {
            draw(alloc, desk, named, &clash.kept, &clash.drops)
        }
        CertOutcome::Shows(Verdict::Optimal(_)) => finish(desk, &part_report(outcome)),
        CertOutcome::Shows(Verdict::Unfinished(_)) => finish(desk, &part_report(outcome)),
        CertOutcome::Wrong { .. } => finish(desk, &part_report(outcome)),
        CertOutcome::TooLong => finish(desk, &part_report(outcome)),
    }
}

/// Makes the marks, and sends the picture.
fn draw<D: Desk>(
    alloc: Global,
    desk: &mut D,
    named: &Named,
    kept: &[u32],
    drops: &[Timetable],
) -> Status
    requires lines { AreLines (naming_of named.now) kept.now }
    requires columns { HasColumns (naming_of named.now) }
    ensures { EndsUnlessMemory (picture Infeasible (kept_drawn (naming_of named.now) kept.now drops.now)) (D.state desk.old) (D.state desk.new) result }
{
    match marks(alloc, named, kept) {
        Ok(marks) => send(desk, named, &marks, drops),
        Err(_) => finish(desk, &Report::Memory),
    }
}

/// The marks of kept restrictions; none of a flat text, whose restrictions have no lines.
fn marks(alloc: Global, named: &Named, kept: &[u32]) -> Result<Vec<Mark>, NoMemory>
    requires { AreLines (naming_of named.now) kept.now }
    ensures { IfOk result (λ marks. marks.items ≡ marks_in (naming_of named.now) kept.now) }
{
    match named {
        Named::ByNumber => Ok(Vec::new(alloc)),
        Named::ByName { port, .. } => marks_of(alloc, port, kept),
    }
}

/// Sends the picture. Returns the status of its verdict, or `WriteFault` if a write failed.
fn send<D: Desk>(desk: &mut D, named: &Named, marks: &[Mark], drops: &[Timetable]) -> Status
    requires { HasColumns (naming_of named.now) }
    ensures { Ends (picture Infeasible (marked_clash (naming_of named.now) marks.now drops.now) ∷ []) (D.state desk.old) (D.state desk.new) result }
{
    match send_text(desk, named, marks, drops) {
        Ok(()) => Status::Infeasible,
        Err(_) => Status::WriteFault,
    }
}

/// Sends the picture's text. It takes no memory.
fn send_text<D: Desk>(
    desk: &mut D,
    named: &Named,
    marks: &[Mark],
    drops: &[Timetable],
) -> Result<(), DeskFailed>
    requires { HasColumns (naming_of named.now) }
    ensures { SendsText Tray.Report (marked_clash (naming_of named.now) marks.now drops.now) (D.state desk.old) (D.state desk.new) result }
{
    let mut out = TrayWriter::new(desk, Tray::Report);
    put_clash(&mut out, named, marks, drops);
    out.flush()
}

/// Puts the picture, of a port. It takes no memory.
fn put_clash<W: Writer>(out: &mut W, named: &Named, marks: &[Mark], drops: &[Timetable])
    requires { HasColumns (naming_of named.now) }
    ensures { Puts (marked_clash (naming_of named.now) marks.now drops.now) (W.state out.old) (W.state out.new) }
{
    match named {
        Named::ByNumber => out.put(b""),
        Named::ByName { port, tide } => put_clash_picture(out, port, tide, marks, drops),
    }
}

//! Sends what a search for a clash found: its certificate, and then its report.

ghost use Rattle.std.specs.Prelude.{◌≡◌, false};
ghost use Rattle.std.specs.Option.{option_map};
ghost use Rattle.hw_report.specs.Printing.{CanPrint};
ghost use Rattle.hw_report.specs.Seen.{report_seen};
ghost use Rattle.hw_command_clash.specs.Found.{SendsFound, lines_found, report_found};

use hw_cert::{Line, Version};
use hw_clash::Clashed;
use hw_command::{Status, finish, send_lines};
use hw_desk::{Desk, Tray};
use hw_report::Report;

/// The lines of the certificate of what was found, and none where memory ran out.
fn certificate(clashed: &Clashed) -> Option<&[Line]>
    ensures { option_map (λ lines. lines.now) result ≡ lines_found clashed.now }
{
    match clashed {
        Clashed::Clash { proof, .. } | Clashed::Met { proof, .. } | Clashed::Spent { proof, .. } =>
            Some(proof.lines()),
        Clashed::NoMemory => None,
    }
}

/// The report of what was found.
fn found_report(clashed: &Clashed, budget: u32) -> Report
    ensures value { report_seen result ≡ report_found budget clashed.now }
    ensures printed { CanPrint (report_seen result) }
{
    match clashed {
        Clashed::Clash { kept, drops, .. } => Report::Clashed { kept, drops },
        Clashed::Met { table, .. } => Report::Met { table },
        Clashed::Spent { step, .. } => Report::Step {
            budget,
            step: *step,
        },
        Clashed::NoMemory => Report::Memory,
    }
}

/// Makes Proof under its name, sends the certificate of what was found there, and then the report.
/// After a failed make or write nothing more is sent, and where memory ran out Proof isn't made.
/// It takes no memory.
pub fn send_found<D: Desk>(desk: &mut D, clashed: &Clashed, budget: u32, proof: &str) -> Status
    requires unmade { ((D.state desk.old).trays Tray.Proof).made ≡ false }
    ensures { SendsFound (lines_found clashed.now) (report_found budget clashed.now) proof.now (D.state desk.old) (D.state desk.new) result }
{
    match certificate(clashed) {
        Some(lines) => match send_lines(desk, Version::Two, lines, proof) {
            Ok(()) => finish(desk, &found_report(clashed, budget)),
            Err(_) => Status::WriteFault,
        },
        None => finish(desk, &found_report(clashed, budget)),
    }
}

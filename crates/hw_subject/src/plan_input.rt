//! Reading a plan, and making the problem of its repair.

ghost use Rattle.std.specs.Prelude.{◌≡◌, false};
ghost use Rattle.hw_flat.specs.TextWritten.{IsWritable};
ghost use Rattle.hw_report.specs.Printing.{CanPrint};
ghost use Rattle.hw_report.specs.Seen.{report_seen};
ghost use Rattle.hw_subject.specs.PlanInputs.{ReadsRepair, report_of_plan, stop_of_plan};

use hw_command::{read_input, stopped};
use hw_desk::{Desk, Feed, ReadStop};
use hw_flat::Flat;
use hw_repair::{Plan, PlanFault, PlanWord, read_plan, repaired};
use hw_report::Report;
use std::alloc::Global;

/// A plan, and the problem of its repair.
#[derive(Drop)]
pub struct Repair {
    pub plan: Plan,
    pub flat: Flat,
}

/// Why there is no plan.
#[derive(Clone, Copy)]
pub enum PlanStop {
    /// The plan couldn't be read to its end.
    Input(ReadStop),
    /// Its first wrong line, numbered from 1, and what was demanded there.
    Line { number: u64, word: PlanWord },
}

/// Begins the plan of a problem under its name, reads it to its end, and makes the problem of its
/// repair.
pub(crate) fn read_repair<D: Desk>(
    alloc: Global,
    desk: &mut D,
    flat: &Flat,
    name: &str,
) -> Result<Repair, PlanStop>
    requires unread { ((D.state desk.old).feeds Feed.Plan).begun ≡ false }
    requires writable { IsWritable flat.now }
    ensures { ReadsRepair flat.now name.now (D.state desk.old) (D.state desk.new) result }
{
    let bytes = match read_input(alloc, desk, Feed::Plan, name) {
        Ok(bytes) => bytes,
        Err(stop) => return Err(PlanStop::Input(stop)),
    };
    let plan = match read_plan(alloc, &bytes, flat) {
        Ok(plan) => plan,
        Err(fault) => return Err(bad_plan(fault)),
    };
    match repaired(alloc, flat, &plan) {
        Ok(flat) => Ok(Repair { plan, flat }),
        Err(_) => Err(PlanStop::Input(ReadStop::NoMemory)),
    }
}

/// Why bytes are no plan.
fn bad_plan(fault: PlanFault) -> PlanStop
    ensures { result ≡ stop_of_plan fault }
{
    match fault {
        PlanFault::Line { number, word } => PlanStop::Line { number, word },
        PlanFault::NoMemory => PlanStop::Input(ReadStop::NoMemory),
    }
}

/// The report of why there is no plan.
pub(crate) fn no_plan(stop: PlanStop) -> Report<'static>
    ensures value { report_seen result ≡ report_of_plan stop }
    ensures printed { CanPrint (report_seen result) }
{
    match stop {
        PlanStop::Input(stop) => stopped(Feed::Plan, stop),
        PlanStop::Line { number, word } => Report::BadText {
            feed: Feed::Plan,
            number,
            word: word.text(),
        },
    }
}

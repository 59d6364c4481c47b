//! The picture of what was given, or of its repair, is sent.

ghost use Rattle.std.specs.Prelude.{◌≡◌, ◌∷◌, [], IfSome, None, option_map};
ghost use Rattle.hw_model.specs.Problem.{IsTimetable};
ghost use Rattle.hw_desk.specs.Whole.{SendsText};
ghost use Rattle.hw_desk.specs.Writers.{Puts};
ghost use Rattle.hw_chart_flat.specs.Moves.{IsPlan};
ghost use Rattle.hw_report.specs.Printing.{AreNamesOf};
ghost use Rattle.hw_command.specs.Ends.{Ends};
ghost use Rattle.hw_repair.specs.Wishes.{PlanFits};
ghost use Rattle.hw_subject.specs.Reading.{naming_of, plan_in};
ghost use Rattle.hw_command_chart.specs.Drawing.{EndsUnlessMemory, drawn as drawn_picture, drawn_repair, drawn_report, plainly_drawn};

use crate::repairing::{Drawn, put_flat_repair, put_port_repair};
use hw_chart::Outcome;
use hw_chart_flat::{Plan, put_flat_picture};
use hw_chart_port::put_port_picture;
use hw_command::{Status, finish, status_of_verdict};
use hw_desk::{Desk, DeskFailed, Tray, TrayWriter, Writer};
use hw_flat::Timetable;
use hw_report::Report;
use hw_subject::{Given, Named};
use std::alloc::Global;

/// Finds the moves of the timetable, if there is one, and sends the picture.
pub(crate) fn draw<D: Desk>(
    alloc: Global,
    desk: &mut D,
    given: &Given,
    table: Option<Timetable>,
    outcome: Outcome,
) -> Status
    requires names { AreNamesOf given.now.flat (naming_of given.now.named) }
    requires plan { IfSome (plan_in given.now.repair) (PlanFits given.now.flat) }
    requires listed { IfSome table (IsTimetable given.now.flat) }
    ensures ends { EndsUnlessMemory (drawn_report given.now table outcome) (D.state desk.old) (D.state desk.new) result }
    ensures without { table ≡ None → Ends (drawn_report given.now None outcome ∷ []) (D.state desk.old) (D.state desk.new) result }
{
    match table {
        None => send(desk, given, None, outcome),
        Some(table) => match Plan::new(alloc, &given.flat, table) {
            Ok(plan) => send(desk, given, Some(&plan), outcome),
            Err(_) => finish(desk, &Report::Memory),
        },
    }
}

/// Sends the picture. Returns the status of its verdict, or `WriteFault` if a write failed.
fn send<D: Desk>(desk: &mut D, given: &Given, plan: Option<&Plan>, outcome: Outcome) -> Status
    requires names { AreNamesOf given.now.flat (naming_of given.now.named) }
    requires plan { IfSome (plan_in given.now.repair) (PlanFits given.now.flat) }
    requires moves { IfSome plan (λ p. IsPlan given.now.flat p.now) }
    ensures { Ends (drawn_report given.now (option_map (λ p. p.now.table) plan.entry) outcome ∷ []) (D.state desk.old) (D.state desk.new) result }
{
    match send_text(desk, given, plan, outcome) {
        Ok(()) => status_of_verdict(outcome.verdict),
        Err(_) => Status::WriteFault,
    }
}

/// Sends the picture's text. It takes no memory.
fn send_text<D: Desk>(
    desk: &mut D,
    given: &Given,
    plan: Option<&Plan>,
    outcome: Outcome,
) -> Result<(), DeskFailed>
    requires names { AreNamesOf given.now.flat (naming_of given.now.named) }
    requires plan { IfSome (plan_in given.now.repair) (PlanFits given.now.flat) }
    requires moves { IfSome plan (λ p. IsPlan given.now.flat p.now) }
    ensures { SendsText Tray.Report (drawn_picture given.now (option_map (λ p. p.now.table) plan.entry) outcome) (D.state desk.old) (D.state desk.new) result }
{
    let mut out = TrayWriter::new(desk, Tray::Report);
    put_picture(&mut out, given, plan, outcome);
    out.flush()
}

/// Puts the picture of the flat text, or that of the port; of the repair, if there is one. It takes no
/// memory.
fn put_picture<W: Writer>(out: &mut W, given: &Given, plan: Option<&Plan>, outcome: Outcome)
    requires names { AreNamesOf given.now.flat (naming_of given.now.named) }
    requires plan { IfSome (plan_in given.now.repair) (PlanFits given.now.flat) }
    requires moves { IfSome plan (λ p. IsPlan given.now.flat p.now) }
    ensures { Puts (drawn_picture given.now (option_map (λ p. p.now.table) plan.entry) outcome) (W.state out.old) (W.state out.new) }
{
    match &given.repair {
        None => put_plain(out, given, plan, outcome),
        Some(repair) => {
            let drawn = Drawn {
                flat: &given.flat,
                plan: &repair.plan,
                moves: plan,
                outcome,
            };
            put_repaired(out, &given.named, drawn);
        }
    }
}

/// Puts the picture of the flat text, or that of the port.
fn put_plain<W: Writer>(out: &mut W, given: &Given, plan: Option<&Plan>, outcome: Outcome)
    requires names { AreNamesOf given.now.flat (naming_of given.now.named) }
    requires moves { IfSome plan (λ p. IsPlan given.now.flat p.now) }
    ensures { Puts (plainly_drawn given.now (option_map (λ p. p.now.table) plan.entry) outcome) (W.state out.old) (W.state out.new) }
{
    match &given.named {
        Named::ByNumber => put_flat_picture(out, &given.flat, plan, outcome),
        Named::ByName { port, tide } => put_port_picture(out, port, tide, plan, outcome),
    }
}

/// Puts the picture of the repair of the flat text's plan, or of the port's.
fn put_repaired<W: Writer>(out: &mut W, named: &Named, drawn: Drawn)
    requires names { AreNamesOf drawn.flat.now (naming_of named.now) }
    requires plan { PlanFits drawn.flat.now drawn.plan.now }
    requires moves { IfSome drawn.moves (λ p. IsPlan drawn.flat.now p.now) }
    ensures { Puts (drawn_repair named.now drawn.entry) (W.state out.old) (W.state out.new) }
{
    match named {
        Named::ByNumber => put_flat_repair(out, drawn),
        Named::ByName { port, tide } => put_port_repair(out, port, tide, drawn),
    }
}

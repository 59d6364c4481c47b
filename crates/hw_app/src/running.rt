//! The words of a command are carried out, and its report is sent: the call that carries the whole
//! promise.

ghost use Rattle.std.specs.Prelude.{map, string_bytes};
ghost use Rattle.hw_desk.specs.State.{IsNewDesk};
ghost use Rattle.hw_app.specs.Run.{RunMeets};

use crate::command::Command;
use crate::words::read_command;
use hw_command::{Status, finish};
use hw_command_audit::{audit_port, carry_port};
use hw_command_chart::{chart, chart_clash};
use hw_command_check::{check, renew, verify};
use hw_command_clash::{check_clash, clash};
use hw_command_search::{demo, resume_subject, search_subject};
use hw_command_split::{join_subject, part_subject, split_subject};
use hw_command_texts::{
    explain_port, explain_repair, flatten_port, lint_port, list_model, list_table, list_windows,
};
use hw_desk::Desk;
use hw_report::Report;
use std::alloc::Global;

/// Does what the words say over a desk on which nothing was begun or made, and sends its report.
///
/// After every status but `WriteFault` the whole report was sent, and after that one a proper prefix.
pub fn run<D: Desk>(alloc: Global, words: &[String], desk: &mut D) -> Status
    requires { IsNewDesk (D.state desk.old) }
    ensures { RunMeets (map string_bytes words.now) (D.state desk.old) (D.state desk.new) result }
{
    let command = match read_command(words) {
        Ok(command) => command,
        Err(place) => return finish(desk, &Report::Words { place }),
    };
    match command {
        Command::Search {
            subject,
            how,
            budget,
            proof,
        } => search_subject(alloc, desk, subject, &how, budget, proof),
        Command::Resume {
            subject,
            cert,
            budget,
            proof,
        } => resume_subject(alloc, desk, subject, cert, budget, proof),
        Command::Split {
            subject,
            words,
            parts,
        } => split_subject(alloc, desk, subject, words, parts),
        Command::Part {
            subject,
            words,
            budget,
        } => part_subject(alloc, desk, subject, words, budget),
        Command::Join {
            subject,
            split,
            certs,
            proof,
        } => join_subject(alloc, desk, subject, split, certs, proof),
        Command::Check { subject, cert } => check(alloc, desk, subject, cert),
        Command::Verify { subject, cert } => verify(alloc, desk, subject, cert),
        Command::Renew {
            subject,
            cert,
            proof,
        } => renew(alloc, desk, subject, cert, proof),
        Command::Chart { subject, cert } => chart(alloc, desk, subject, cert),
        Command::ChartClash { port, clash, cert } => chart_clash(alloc, desk, port, clash, cert),
        Command::Table { subject, cert } => list_table(alloc, desk, subject, cert),
        Command::ExplainRepair { source, plan, cert } => {
            explain_repair(alloc, desk, source, plan, cert)
        }
        Command::Clash {
            subject,
            budget,
            proof,
        } => clash(alloc, desk, subject, budget, proof),
        Command::CheckClash {
            subject,
            clash,
            cert,
        } => check_clash(alloc, desk, subject, clash, cert),
        Command::Explain { port } => explain_port(alloc, desk, port),
        Command::Windows { port } => list_windows(alloc, desk, port),
        Command::Lint { port } => lint_port(alloc, desk, port),
        Command::Model { source, format } => list_model(alloc, desk, source, format),
        Command::Audit { port, plan, events } => audit_port(alloc, desk, port, plan, events),
        Command::Carry { port, plan, events } => carry_port(alloc, desk, port, plan, events),
        Command::Flatten { port } => flatten_port(alloc, desk, port),
        Command::Demo {
            draw,
            budget,
            proof,
        } => demo(alloc, desk, draw, budget, proof),
    }
}

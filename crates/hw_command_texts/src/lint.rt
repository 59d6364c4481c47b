//! Why the inputs of a port are refused, with what they look like, or what is likely meant otherwise.

ghost use Rattle.std.specs.Prelude.{◌≡◌, ◌∷◌, []};
ghost use Rattle.hw_desk.specs.State.{IsNewDesk};
ghost use Rattle.hw_report.specs.Printing.{CanPrint};
ghost use Rattle.hw_port_lint.specs.Instances.{IsBreak, IsFieldTold};
ghost use Rattle.hw_port_lint.specs.Tables.{table_hints};
ghost use Rattle.hw_report.specs.Reports.{bad_field, bad_json, bad_tides, whole_text};
ghost use Rattle.hw_report.specs.Seen.{report_seen};
ghost use Rattle.hw_command.specs.Carries.{Carries};
ghost use Rattle.hw_command.specs.Ends.{Ends};
ghost use Rattle.hw_command_texts.specs.Linted.{Refusal, RefusesInstance, RefusesTable, hinted_reports};
ghost use Rattle.hw_command_texts.specs.Lints.{lint_task};

use crate::listing::{list_held, whole_report};
use hw_command::{PortNames, Status, finish, read_input, status_of, stopped};
use hw_desk::{Desk, Feed};
use hw_model::NoMemory;
use hw_port::PortFault;
use hw_port_lint::{field_hints, json_hints, lint_text, table_hints};
use hw_read::{ReadFault, read_port};
use hw_report::{Report, print_report};
use hw_tide::{TideFault, read_tides};
use std::alloc::Global;

/// Sends a text and then a report.
fn send_both<D: Desk>(desk: &mut D, hints: &[u8], refusal: &Report) -> Status
    requires { CanPrint (report_seen refusal.now) }
    ensures { Ends (whole_text hints.now ∷ report_seen refusal.now ∷ []) (D.state desk.old) (D.state desk.new) result }
{
    let whole = whole_report(hints);
    match print_report(desk, &whole) {
        Ok(()) => match print_report(desk, refusal) {
            Ok(()) => status_of(refusal),
            Err(_) => Status::WriteFault,
        },
        Err(_) => Status::WriteFault,
    }
}

/// Sends what was made of a refused input, and then its refusal; or reports that memory ran out.
fn send_hinted<D: Desk>(desk: &mut D, hints: &Result<Vec<u8>, NoMemory>, refusal: &Report) -> Status
    requires { CanPrint (report_seen refusal.now) }
    ensures { Ends (hinted_reports hints.now (report_seen refusal.now)) (D.state desk.old) (D.state desk.new) result }
{
    match hints {
        Ok(hints) => send_both(desk, hints, refusal),
        Err(_) => finish(desk, &Report::Memory),
    }
}

/// Tells that an instance is no JSON.
fn refuse_json<D: Desk>(alloc: Global, desk: &mut D, bytes: &[u8]) -> Status
    ensures { Refusal (IsBreak bytes.now) bad_json (D.state desk.old) (D.state desk.new) result }
{
    let hints = json_hints(alloc, bytes);
    send_hinted(desk, &hints, &Report::BadJson)
}

/// Tells the fault of an instance.
fn refuse_field<D: Desk>(alloc: Global, desk: &mut D, bytes: &[u8], fault: PortFault) -> Status
    ensures { Refusal (IsFieldTold bytes.now fault) (bad_field fault) (D.state desk.old) (D.state desk.new) result }
{
    let hints = field_hints(alloc, bytes, fault);
    send_hinted(desk, &hints, &Report::BadField { fault })
}

/// Tells the fault of a tide table.
fn refuse_rows<D: Desk>(alloc: Global, desk: &mut D, bytes: &[u8], fault: TideFault) -> Status
    ensures { Refusal (λ hints. hints ≡ table_hints bytes.now) (bad_tides fault) (D.state desk.old) (D.state desk.new) result }
{
    let hints = table_hints(alloc, bytes);
    send_hinted(desk, &hints, &Report::BadTides { fault })
}

/// Tells why an instance is refused.
fn refuse_instance<D: Desk>(alloc: Global, desk: &mut D, bytes: &[u8], fault: ReadFault) -> Status
    ensures { RefusesInstance bytes.now fault (D.state desk.old) (D.state desk.new) result }
{
    match fault {
        ReadFault::NotJson => refuse_json(alloc, desk, bytes),
        ReadFault::Field(fault) => refuse_field(alloc, desk, bytes, fault),
        ReadFault::NoMemory => finish(desk, &Report::Memory),
    }
}

/// Tells why a tide table is refused.
fn refuse_table<D: Desk>(alloc: Global, desk: &mut D, bytes: &[u8], fault: TideFault) -> Status
    ensures { RefusesTable bytes.now fault (D.state desk.old) (D.state desk.new) result }
{
    match fault {
        TideFault::NoMemory => finish(desk, &Report::Memory),
        _ => refuse_rows(alloc, desk, bytes, fault),
    }
}

/// Reads the instance and then its tide table. Where one of them is refused, it sends hints on what it looks like, and then its
/// refusal; where both are read, hints on what is likely meant otherwise, or `clean`.
///
/// Hints stand in memory before the first byte is sent: at most some 10,000 bytes.
pub fn lint_port<D: Desk>(alloc: Global, desk: &mut D, names: PortNames) -> Status
    requires fresh { IsNewDesk (D.state desk.old) }
    ensures { Carries (lint_task names.entry.instance.now names.entry.tides.now) (D.state desk.old) (D.state desk.new) result }
{
    let bytes = match read_input(alloc, desk, Feed::Instance, names.instance) {
        Ok(bytes) => bytes,
        Err(stop) => return finish(desk, &stopped(Feed::Instance, stop)),
    };
    let port = match read_port(alloc, &bytes) {
        Ok(port) => port,
        Err(fault) => return refuse_instance(alloc, desk, &bytes, fault),
    };
    // The call shows that the port keeps the meaning rules.
    let _parts = port.parts();
    let table = match read_input(alloc, desk, Feed::Tides, names.tides) {
        Ok(table) => table,
        Err(stop) => return finish(desk, &stopped(Feed::Tides, stop)),
    };
    match read_tides(alloc, &table, &port) {
        Ok(tide) => {
            // Reading a field shows that the tide is within its limits.
            let rows = tide.rows;
            list_held(desk, &lint_text(alloc, &port, rows, &table))
        }
        Err(fault) => refuse_table(alloc, desk, &table, fault),
    }
}

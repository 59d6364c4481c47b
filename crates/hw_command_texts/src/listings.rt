//! What was read of a port, or of a flat text or a port, is listed.

ghost use Rattle.std.specs.Prelude.{◌≡◌, IfOk};
ghost use Rattle.hw_desk.specs.State.{IsNewDesk};
ghost use Rattle.hw_flat.specs.TextWritten.{IsWritable, problem_text};
ghost use Rattle.hw_command.specs.Carries.{Carries};
ghost use Rattle.hw_subject.specs.Subjects.{subject_of_source};
ghost use Rattle.hw_command_texts.specs.Listings.{explain_port_task, flatten_task, model_task, windows_task};

use crate::listing::{Listing, list, list_held};
use hw_command::{PortNames, Status, finish, read_port_problem};
use hw_desk::Desk;
use hw_flat::Flat;
use hw_flat_programme::Format;
use hw_model::NoMemory;
use hw_port_named::explain;
use hw_subject::{Source, Subject, read_subject};
use std::alloc::Global;

/// Reads the instance and then its tide table, and sends when each ship may sail, and why not.
///
/// Nothing is sent before both were read, and sending takes no memory. After `WriteFault` a proper
/// prefix of the text was sent.
pub fn list_windows<D: Desk>(alloc: Global, desk: &mut D, port: PortNames) -> Status
    requires fresh { IsNewDesk (D.state desk.old) }
    ensures { Carries (windows_task port.entry.instance.now port.entry.tides.now) (D.state desk.old) (D.state desk.new) result }
{
    match read_port_problem(alloc, desk, port) {
        Ok(problem) => list(
            desk,
            Listing::Windows {
                port: &problem.port,
                tide: &problem.tide,
            },
        ),
        Err(report) => finish(desk, &report),
    }
}

/// Reads the instance and then its tide table, and sends a line for each restriction of the port, by
/// its number in the port's flat problem. The whole text stands in memory before the first byte is
/// sent.
pub fn explain_port<D: Desk>(alloc: Global, desk: &mut D, port: PortNames) -> Status
    requires fresh { IsNewDesk (D.state desk.old) }
    ensures { Carries (explain_port_task port.entry.instance.now port.entry.tides.now) (D.state desk.old) (D.state desk.new) result }
{
    match read_port_problem(alloc, desk, port) {
        Ok(problem) => list_held(desk, &explain(alloc, &problem.port)),
        Err(report) => finish(desk, &report),
    }
}

/// Reads the instance and then its tide table, and sends the flat text of the port. The whole text
/// stands in memory before the first byte is sent: up to some 400,000 bytes.
pub fn flatten_port<D: Desk>(alloc: Global, desk: &mut D, port: PortNames) -> Status
    requires fresh { IsNewDesk (D.state desk.old) }
    ensures { Carries (flatten_task port.entry.instance.now port.entry.tides.now) (D.state desk.old) (D.state desk.new) result }
{
    match read_port_problem(alloc, desk, port) {
        Ok(problem) => list_held(desk, &flat_text(alloc, &problem.flat)),
        Err(report) => finish(desk, &report),
    }
}

/// The flat text of a problem.
fn flat_text(alloc: Global, flat: &Flat) -> Result<Vec<u8>, NoMemory>
    requires { IsWritable flat.now }
    ensures { IfOk result (λ text. text.items ≡ problem_text flat.now) }
{
    let mut text = Vec::new(alloc);
    flat.write(&mut text)?;
    Ok(text)
}

/// Reads a flat text or a port, and sends the linear programme of its problem in a format. It ends as
/// `list_windows`.
pub fn list_model<D: Desk>(alloc: Global, desk: &mut D, source: Source, format: Format) -> Status
    requires fresh { IsNewDesk (D.state desk.old) }
    ensures { Carries (model_task (subject_of_source source.entry) format) (D.state desk.old) (D.state desk.new) result }
{
    let subject = Subject {
        of: source,
        plan: None,
    };
    match read_subject(alloc, desk, subject) {
        Ok(given) => list(
            desk,
            Listing::Model {
                flat: &given.flat,
                format,
            },
        ),
        Err(report) => finish(desk, &report),
    }
}

//! A clash that is read, checked, and drawn.

ghost use Rattle.hw_desk.specs.State.{IsNewDesk};
ghost use Rattle.hw_command.specs.Carries.{Carries};
ghost use Rattle.hw_command_chart.specs.ClashCharts.{chart_clash_task};

use crate::drawing_clashes::draw_checked;
use hw_command::{PortNames, Status, finish};
use hw_command_clash::read_checked;
use hw_desk::Desk;
use hw_subject::{Source, Subject};
use std::alloc::Global;

/// Reads a port and a clash text, checks the certificate of the kept restrictions, and sends the picture of the clash. Where
/// the certificate doesn't show that they can't be met together, the report is that of `check clash`.
///
/// The lines of the kept restrictions are made before the first byte is sent; the picture itself takes no memory. After
/// `WriteFault` a proper prefix of it was sent.
pub fn chart_clash<D: Desk>(
    alloc: Global,
    desk: &mut D,
    port: PortNames,
    clash: &str,
    cert: &str,
) -> Status
    requires fresh { IsNewDesk (D.state desk.old) }
    ensures { Carries (chart_clash_task port.entry.instance.now port.entry.tides.now clash.now cert.now) (D.state desk.old) (D.state desk.new) result }
{
    let subject = Subject {
        of: Source::Port { names: port },
        plan: None,
    };
    match read_checked(alloc, desk, subject, clash, cert) {
        Ok(checked) => draw_checked(
            alloc,
            desk,
            &checked.given.named,
            &checked.clash,
            checked.outcome,
        ),
        Err(report) => finish(desk, &report),
    }
}

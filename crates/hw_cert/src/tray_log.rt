//! A log whose lines go to a desk's proof as text.

ghost use Rattle.std.specs.Prelude.{◌≡◌, [], true, Err, IfErr, IfOk, IfSome};
ghost use Rattle.hw_desk.specs.Calls.{Sends};
ghost use Rattle.hw_desk.specs.declared.desk.Tray.TheVariants.{Proof};
ghost use Rattle.hw_cert.specs.Logs.{IsEmpty, IsWhole, TakesLine};
ghost use Rattle.hw_cert.specs.Told.{FailsHeader, header_line, is_told, log_of, tray_anchor};

use crate::sending::{send_header, send_line};
use crate::version::Version;
use crate::{Log, LogStop};
use hw_cert_lines::Line;
use hw_desk::{Desk, DeskFailed, Tray};

/// A log whose text goes to the proof of a borrowed desk, as a certificate of this version: a version
/// changes the header alone, and each line has the same text in all of them. It takes no memory.
///
/// Each line is one write where it fits the writer's buffer, and so is the header. Where the desk tells
/// what was sent, that is the header, the text of whole lines and bytes after them.
#[derive(Drop)]
pub struct TrayLog<'d, D: Desk> {
    pub desk: &'d mut D,
    pub version: Version,
    ghost made: { ((D.state desk.now).trays Proof).made ≡ true },
    ghost told: { is_told version ((D.state desk.now).trays Proof).sent ≡ true },
}

/// The header of a log was not sent whole. The borrowed desk comes back.
#[derive(Drop)]
pub struct HeaderFailed<'d, D: Desk> {
    pub desk: &'d mut D,
}

impl<'d, D: Desk> From<HeaderFailed<'d, D>> for DeskFailed {
    /// The failure without the desk, which stays as it is.
    fn from(failed: HeaderFailed<'d, D>) -> DeskFailed
        ensures same { D.state failed.exit.0.now ≡ D.state failed.entry.desk.now }
    {
        let HeaderFailed { desk: _ } = failed;
        DeskFailed
    }
}

impl<'d, D: Desk> TrayLog<'d, D> {
    /// A log without lines: the header is sent, by one `write_all`. After a failure the desk comes back in
    /// the error: a write failed, and a proper prefix of the header was sent.
    pub fn new(desk: &'d mut D, version: Version) -> Result<TrayLog<'d, D>, HeaderFailed<'d, D>>
        requires made { ((D.state desk.old).trays Tray.Proof).made ≡ true }
        requires none { IfSome ((D.state desk.old).trays Tray.Proof).sent (λ bytes. bytes ≡ []) }
        ensures same_reference { IfOk result (λ log. log.desk.ghost_name ≡ desk.entry.ghost_name) }
        ensures same_version { IfOk result (λ log. log.version ≡ version) }
        ensures sent { IfOk result (λ log. Sends Tray.Proof (header_line version) (D.state desk.old) (D.state log.desk.now)) }
        ensures kept { IfOk result (λ log. (D.state log.desk.now).write_faults ≡ (D.state desk.old).write_faults) }
        ensures empty { IfOk result (λ log. IsEmpty (log_of version (D.state log.desk.now))) }
        ensures desk_back { IfErr result (λ failed. failed.desk.ghost_name ≡ desk.entry.ghost_name) }
        ensures failed { IfErr result (λ failed. FailsHeader version (D.state desk.old) (D.state failed.desk.now)) }
    {
        match send_header(desk, version) {
            Ok(()) => Ok(TrayLog { desk, version }),
            Err(_) => Err(HeaderFailed { desk }),
        }
    }

    /// A log over a desk whose proof is the header of this version and lines.
    pub fn over(desk: &'d mut D, version: Version) -> TrayLog<'d, D>
        requires made { ((D.state desk.old).trays Tray.Proof).made ≡ true }
        requires told { is_told version ((D.state desk.old).trays Tray.Proof).sent ≡ true }
        ensures same_reference { result.desk.ghost_name ≡ desk.entry.ghost_name }
        ensures same_version { result.version ≡ version }
        ensures same { D.state result.desk.now ≡ D.state desk.old }
    {
        TrayLog { desk, version }
    }
}

impl<D: Desk> Log for TrayLog<'_, D> {
    ghost state = { λ log. log_of log.version (D.state log.desk.now) };

    ghost anchor = { λ log. tray_anchor log.desk.ghost_name log.version (D.state log.desk.now) };

    /// As the trait says. It takes no memory, so it never answers `NoMemory`.
    fn line(&mut self, line: &Line) -> Result<(), LogStop>
        requires whole { IsWhole (log_of self.old.version (D.state self.old.desk.now)) }
        ensures takes { TakesLine line.now (log_of self.old.version (D.state self.old.desk.now)) (log_of self.new.version (D.state self.new.desk.now)) result }
        ensures same_reference { tray_anchor self.new.desk.ghost_name self.new.version (D.state self.new.desk.now)
            ≡ tray_anchor self.old.desk.ghost_name self.old.version (D.state self.old.desk.now) }
        ensures no_memory { result ≡ Err LogStop.NoMemory → ⊥ }
    {
        match send_line(self.desk, line) {
            Ok(()) => Ok(()),
            Err(_) => Err(LogStop::Failed),
        }
    }
}

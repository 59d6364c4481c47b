//! A certificate, sent to the proof: whole, or its header and then line by line.

ghost use Rattle.std.specs.Prelude.{◌≡◌, [], true, IfSome, OnOk, map};
ghost use Rattle.std.specs.List.{list_all};
ghost use Rattle.hw_desk.specs.State.{CanSend};
ghost use Rattle.hw_desk.specs.Whole.{SendsText};
ghost use Rattle.hw_desk.specs.Writers.{Puts};
ghost use Rattle.hw_text.specs.Parts.{ended_lines};
ghost use Rattle.hw_cert.specs.Laws.{is_small, is_wide, line_numbers, wide_numbers};
ghost use Rattle.hw_cert.specs.Logs.{IsEmpty, ended_text};
ghost use Rattle.hw_cert.specs.Texts.{cert_text, line_text};
ghost use Rattle.hw_cert.specs.Told.{header_line, is_told, log_of};

use crate::putting::put_line;
use crate::version::Version;
use hw_cert_lines::Line;
use hw_desk::{Desk, DeskFailed, Tray, TrayWriter, Writer, write_all};

/// Puts lines, each with its end.
#[tactic(auto, using(hw_desk::proofs::Written::puts_on))]
fn put_lines<W: Writer>(out: &mut W, lines: &[Line])
    ensures puts { Puts (ended_lines (map line_text lines.now)) (W.state out.old) (W.state out.new) }
{
    for line in lines {
        put_line(out, line);
        out.put(b"\n");
    }
}

/// Sends a certificate of a version, its header and these lines, in as few writes as the writer's buffer
/// allows. It takes no memory. After a failure a proper prefix of the text was sent.
pub fn send_cert<D: Desk>(desk: &mut D, version: Version, lines: &[Line]) -> Result<(), DeskFailed>
    requires made { CanSend Tray.Proof (D.state desk.old) }
    ensures sends { SendsText Tray.Proof (cert_text version lines.now) (D.state desk.old) (D.state desk.new) result }
{
    let mut out = TrayWriter::new(desk, Tray::Proof);
    out.put(header_line(version));
    put_lines(&mut out, lines);
    out.flush()
}

/// The header's line of a version, with its end.
fn header_line(version: Version) -> &'static [u8]
    ensures { result.now ≡ header_line version }
{
    match version {
        Version::One => b"cert 1\n",
        Version::Two => b"cert 2\n",
        Version::Three => b"cert 3\n",
    }
}

/// Sends the header of a certificate of a version, by a write of its own.
pub fn send_header<D: Desk>(desk: &mut D, version: Version) -> Result<(), DeskFailed>
    requires made { ((D.state desk.old).trays Tray.Proof).made ≡ true }
    requires none { IfSome ((D.state desk.old).trays Tray.Proof).sent (λ bytes. bytes ≡ []) }
    ensures sends { SendsText Tray.Proof (header_line version) (D.state desk.old) (D.state desk.new) result }
    ensures told { OnOk result (is_told version ((D.state desk.new).trays Tray.Proof).sent ≡ true) }
    ensures empty { OnOk result (IsEmpty (log_of version (D.state desk.new))) }
{
    write_all(desk, Tray::Proof, header_line(version))
}

/// Sends a line with its end.
pub fn send_line<D: Desk>(desk: &mut D, line: &Line) -> Result<(), DeskFailed>
    requires made { CanSend Tray.Proof (D.state desk.old) }
    ensures sends { SendsText Tray.Proof (ended_text line.now) (D.state desk.old) (D.state desk.new) result }
    ensures small { list_all is_small (line_numbers line.now) ≡ true }
    ensures wide { list_all is_wide (wide_numbers line.now) ≡ true }
{
    let mut out = TrayWriter::new(desk, Tray::Proof);
    put_line(&mut out, line);
    out.put(b"\n");
    out.flush()
}

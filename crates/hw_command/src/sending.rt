//! A whole certificate that is sent to Proof.

ghost use Rattle.std.specs.Prelude.{◌≡◌, false};
ghost use Rattle.hw_cert.specs.Texts.{cert_text};
ghost use Rattle.hw_command.specs.Sending.{SendsTo};

use hw_cert::{Line, Version, send_cert};
use hw_desk::{Desk, DeskFailed, Tray};

/// Makes Proof under a name, and sends a certificate of a version with these lines there. After an error a
/// make or a write failed, and Proof holds a proper prefix of the certificate's text. It takes no memory.
pub fn send_lines<D: Desk>(
    desk: &mut D,
    version: Version,
    lines: &[Line],
    name: &str,
) -> Result<(), DeskFailed>
    requires { ((D.state desk.old).trays Tray.Proof).made ≡ false }
    ensures { SendsTo name.now (cert_text version lines.now) (D.state desk.old) (D.state desk.new) result }
{
    match desk.make(Tray::Proof, name) {
        Ok(()) => send_cert(desk, version, lines),
        Err(failed) => Err(failed),
    }
}

//! A certificate that a command goes on from.

ghost use Rattle.std.specs.Prelude.{◌≡◌, false};
ghost use Rattle.hw_command.specs.Starting.{ReadsStart};

use crate::cert::{ReadCert, read_cert};
use crate::outcome::{CertOutcome, CertStop};
use hw_cert::Version;
use hw_cert_course::Course;
use hw_desk::{Desk, Feed};
use hw_flat::Flat;
use std::alloc::Global;

/// Begins a certificate of any version under its name, and checks its lines one by one. Gives them with
/// the checker that has taken them all, so that nobody checks them again. An error says why there is
/// nothing to go on from, told as of a certificate.
pub fn read_start<'f, D: Desk>(
    alloc: Global,
    desk: &mut D,
    flat: &'f Flat,
    name: &str,
) -> Result<Course<'f>, Result<CertOutcome, CertStop>>
    requires { ((D.state desk.old).feeds Feed.Certificate).begun ≡ false }
    ensures { ReadsStart flat.now name.now (D.state desk.old) (D.state desk.new) result }
{
    let lines = Vec::new(alloc);
    let ReadCert {
        outcome,
        bound: _,
        kept: lines,
        checker,
    } = match read_cert(alloc, desk, flat, name, Version::Three, lines) {
        Ok(read) => read,
        Err(stop) => return Err(Err(stop)),
    };
    match checker {
        Some(checker) => Ok(Course {
            flat,
            checker,
            lines,
        }),
        None => Err(Ok(outcome)),
    }
}

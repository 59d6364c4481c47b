//! Valid lines, checked.

ghost use Rattle.std.specs.Prelude.{◌≡◌, ◌∷◌, ◌++◌, [], All, IfOk, List, None};
ghost use Rattle.hw_check.specs.Follows.{CheckerFollows};
ghost use Rattle.hw_cert_lines.specs.Refusals.{kept_refusal};
ghost use Rattle.hw_cert_lines.specs.Valid.{LineFits, Valid};
ghost use Rattle.hw_cert_lines.specs.declared.line.Line.{Line as CertLine};

use hw_cert_lines::Line;
use hw_check::{CheckStop, Checker};
use hw_flat::{Flat, NoMemory};
use std::alloc::Global;

/// A checker that has taken valid lines.
pub(crate) fn check_all<'f>(
    alloc: Global,
    flat: &'f Flat,
    lines: &[Line],
) -> Result<Checker<'f>, NoMemory>
    requires fit { All (LineFits flat.now) lines.now }
    requires valid { Valid flat.now lines.now }
    ensures follows { IfOk result (λ c. CheckerFollows c lines.now) }
    ensures problem { IfOk result (λ c. c.problem ≡ flat.now) }
{
    let _shape = flat.shape();
    let mut checker = Checker::new(alloc, flat)?;
    for line in lines {
        checker = check_one(checker, line)?;
    }
    Ok(checker)
}

/// Takes a line that is valid after those that were taken. An error says that memory ran out.
pub fn check_one<'f>(checker: Checker<'f>, line: &Line) -> Result<Checker<'f>, NoMemory>
    requires fits { LineFits checker.problem line.now }
    requires valid { kept_refusal checker.problem checker.kept line.now ≡ None }
    ensures problem { IfOk result (λ c. c.problem ≡ checker.entry.problem) }
    ensures followed { (before : List CertLine) → CheckerFollows checker.entry before → IfOk result (λ c. CheckerFollows c (before ++ line.now ∷ [])) }
{
    match checker.borrowed_line(line) {
        Ok(followed) => Ok(followed),
        Err(CheckStop::NoMemory) => Err(NoMemory),
        Err(CheckStop::Refused(_)) => unreachable!(),
    }
}

//! The laws of a run: functions without a body whose clause is the statement.

ghost use Rattle.hw_app.specs.Laws.{FaultCauses, OwnCertificate, RenewedCertificate, ShowsValid};

/// A fault comes only where the count of its kind rose.
pub fn fault_causes()
    ensures { FaultCauses }
{}

/// A check says yes exactly where the bytes pass no limit and are the text of valid lines that prove
/// the verdict.
pub fn shows_valid()
    ensures { ShowsValid }
{}

/// A certificate of valid plain lines shows what they prove.
pub fn own_certificate()
    ensures { OwnCertificate }
{}

/// A certificate that was renewed shows what it showed before.
pub fn renewed_certificate()
    ensures { RenewedCertificate }
{}

//! The law of certificates that are renewed: a function without a body.

ghost use Rattle.hw_command_check.specs.Laws.{RenewedAsChecked};

/// A certificate is reported the same whether it is verified or renewed.
pub fn renewed_as_checked()
    ensures { RenewedAsChecked }
{}

//! What the meaning rules say of a port.

ghost use Rattle.hw_port.specs.Kept.{FaultlessIsKept};

/// Parts have no fault of meaning exactly where they keep every rule, distinct names among them.
pub fn faultless_is_kept()
    ensures { FaultlessIsKept }
{}

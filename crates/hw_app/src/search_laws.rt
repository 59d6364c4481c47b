//! The laws of checks of what searches wrote: functions without a body.

ghost use Rattle.hw_app.specs.LawsOfClashes.{OwnClash};
ghost use Rattle.hw_app.specs.LawsOfResumptions.{ResumedReport};
ghost use Rattle.hw_app.specs.LawsOfSearches.{OwnReport, OwnStatus, ZeroIsUsual};

/// Of a certificate that a search of any subject wrote, a check up to its version tells the verdict of
/// the head and the bound, unless the certificate passes a limit.
pub fn own_report()
    ensures { OwnReport }
{}

/// A check of a certificate that a search wrote ends with the status of the search, where both are told
/// the same inputs, unless the certificate passes a limit, a call fails or memory runs out.
pub fn own_status()
    ensures { OwnStatus }
{}

/// Of a certificate that `resume` wrote, `verify` tells the verdict of the head and the bound, unless the
/// certificate passes a limit.
pub fn resumed_report()
    ensures { ResumedReport }
{}

/// A form of `prove` with the seed 0 is the same command as the form without it.
pub fn zero_is_usual()
    ensures { ZeroIsUsual }
{}

/// `check clash` of a clash that `clash` printed, with the certificate that it wrote, says that the
/// clash holds, unless the certificate passes a limit.
pub fn own_clash()
    ensures { OwnClash }
{}

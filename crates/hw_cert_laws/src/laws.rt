//! The laws of what valid lines prove, each a function without a body.

ghost use Rattle.hw_cert_laws.specs.Laws.{SoundLines, SoundVerdict, SoundBounds, RefusalComputed, JudgedExactly};
ghost use Rattle.hw_cert_laws.specs.Causes.{RefusalCauses};
ghost use Rattle.hw_cert_laws.specs.Renewing.{RenewedValid, ValidNumbered};
ghost use Rattle.hw_cert_laws.specs.Rows.{LeanRows, NewRows, RenewedRows};

/// Every clause of valid lines is true of every permitted timetable that beats the best.
pub fn sound_lines()
    ensures { SoundLines }
{}

/// The verdict of valid lines is so.
pub fn sound_verdict()
    ensures { SoundVerdict }
{}

/// No permitted timetable carries more than the bound of valid lines.
pub fn sound_bounds()
    ensures { SoundBounds }
{}

/// A line is valid exactly where no cause against it is found.
pub fn refusal_computed()
    ensures { RefusalComputed }
{}

/// Each line after valid lines of a problem that keeps the limits is tested exactly.
pub fn judged_exactly()
    ensures { JudgedExactly }
{}

/// What each word that refuses a line says is wrong with it.
pub fn refusal_causes()
    ensures { RefusalCauses }
{}

/// Valid lines are valid after renewing, with the same verdict.
pub fn renewed_valid()
    ensures { RenewedValid }
{}

/// Valid lines can be renewed: each of their hints has a place among their numbers.
pub fn valid_numbered()
    ensures { ValidNumbered }
{}

/// Worked rows: which lines are lean.
pub fn lean_rows()
    ensures { LeanRows }
{}

/// Worked rows: which lemmas are new.
pub fn new_rows()
    ensures { NewRows }
{}

/// Worked rows: what deletions a certificate gets.
pub fn renewed_rows()
    ensures { RenewedRows }
{}

//! The laws of repairs that are explained: functions without a body.

ghost use Rattle.hw_command_texts.specs.RepairLaws.{ExplainedAsVerified, OneExplanation};

/// The bytes of the inputs and of the certificate decide the report, unless a call fails or memory
/// runs out.
pub fn one_explanation()
    ensures { OneExplanation }
{}

/// What `verify repair` shows with a timetable is explained, and all else is reported as there.
pub fn explained_as_verified()
    ensures { ExplainedAsVerified }
{}

//! The laws of reports on clashes: functions without a body.

ghost use Rattle.hw_command_clash.specs.Laws.{OneClashReport, TextsDecideClash};

/// The bytes of the inputs, of the clash text and of the certificate decide the report, unless a call
/// fails or memory runs out.
pub fn one_clash_report()
    ensures { OneClashReport }
{}

/// The report on a clash of a flat text, or of the repair of its plan, is computed from the bytes.
pub fn texts_decide_clash()
    ensures { TextsDecideClash }
{}

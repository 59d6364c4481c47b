//! The laws of audits and of the plans of days: functions without a body whose clauses are the statements.

ghost use Rattle.hw_command_audit.specs.AuditPort.{audit_answer};
ghost use Rattle.hw_command_audit.specs.CarryPort.{carry_answer};
ghost use Rattle.hw_command_audit.specs.Laws.{OneAnswer};

/// The bytes of the four files decide what is reported, unless a call fails or memory runs out.
pub fn one_audit()
    ensures { OneAnswer audit_answer }
{}

/// The bytes of the four files decide the plan that is reported, unless a call fails or memory runs out.
pub fn one_carry()
    ensures { OneAnswer carry_answer }
{}

//! The laws of subjects: functions without a body.

ghost use Rattle.hw_subject.specs.Decided.{CertificatesDecide, SubjectsDecided, TextsDecide};
ghost use Rattle.hw_subject.specs.Laws.{SubjectsModelled};

/// The problem that is searched permits what the subject permits, with the same cargo.
pub fn subjects_modelled()
    ensures { SubjectsModelled }
{}

/// The bytes of a subject's inputs give one value or one refusal, and never both.
pub fn subjects_decided()
    ensures { SubjectsDecided }
{}

/// The bytes of a certificate decide the report, by what is read of the subject.
pub fn certificates_decide()
    ensures { CertificatesDecide }
{}

/// The report on a flat text, or on the repair of its plan, is computed from the bytes.
pub fn texts_decide()
    ensures { TextsDecide }
{}

//! The laws of pictures of certificates: functions without a body.

ghost use Rattle.hw_command_chart.specs.Laws.{ChartsAsChecked, ChartsAsVerified, OneChart, TextsDecideChart};

/// The bytes of the inputs and of the certificate decide the picture, unless a call fails or memory
/// runs out.
pub fn one_chart()
    ensures { OneChart }
{}

/// The picture of a certificate of a flat text is computed from the bytes.
pub fn texts_decide_chart()
    ensures { TextsDecideChart }
{}

/// What `verify` shows is drawn, and what it refuses is refused.
pub fn charts_as_verified()
    ensures { ChartsAsVerified }
{}

/// What `check` shows is drawn, and what it refuses is refused, unless the certificate names the third
/// version.
pub fn charts_as_checked()
    ensures { ChartsAsChecked }
{}

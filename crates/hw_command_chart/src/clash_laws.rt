//! The law of pictures of clashes: a function without a body.

ghost use Rattle.hw_command_chart.specs.ClashLaws.{OneClashChart};

/// The bytes of the inputs, of the clash text and of the certificate decide the picture, and what is reported where nothing is
/// drawn, unless a call fails or memory runs out.
pub fn one_clash_chart()
    ensures { OneClashChart }
{}

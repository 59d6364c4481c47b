//! The laws of the flat text.

ghost use Rattle.hw_flat.specs.TextLaws.{OneText, ReadsBack};

/// A text that reads as a problem is the text that `Flat::write` writes of it.
pub fn one_text()
    ensures { OneText }
{}

/// What `Flat::write` writes reads back as the same problem.
pub fn reads_back()
    ensures { ReadsBack }
{}

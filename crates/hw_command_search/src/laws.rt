//! A law of what is on Proof: a function without a body.

ghost use Rattle.hw_command_search.specs.Rows.{CutRows};

/// What bytes on Proof tell that end inside a line, and inside the header.
pub fn cut_rows()
    ensures { CutRows }
{}

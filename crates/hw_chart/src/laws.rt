//! What the parts of a picture have room for.

ghost use Rattle.hw_chart.specs.Legends.{TwoLinesHold};

/// A legend has two lines where its entries, in two parts, fill no more than a line each, whichever of them stand.
#[tactic(auto, using(crate::proofs::Lines::two_lines))]
pub fn two_lines_hold()
    ensures { TwoLinesHold }
{}

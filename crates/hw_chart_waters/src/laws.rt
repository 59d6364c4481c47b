//! What the labels of a line say, and where they stand.

ghost use Rattle.hw_chart_waters.specs.Laws.{LabelsAreWaters, LabelsLieApart, LabelsLieOnPlot, StandsAreWaters};
ghost use Rattle.hw_chart_waters.specs.Rows.{WaterRows};

/// The stands that are found are exactly the longest runs of one height before which and after which the water is lower, or higher.
pub fn stands_are_waters()
    ensures { StandsAreWaters }
{}

/// Each label is that of a high or a low water of the column, with its time and height.
pub fn labels_are_waters()
    ensures { LabelsAreWaters }
{}

/// Of two labels of a line the second begins at least six units after the end of the first, by the measure of their texts.
pub fn labels_lie_apart()
    ensures { LabelsLieApart }
{}

/// A label no wider than the plot lies on it.
pub fn labels_lie_on_plot()
    ensures { LabelsLieOnPlot }
{}

/// Worked rows: a plateau, a low water above a high one, the first and the last row, and what two labels say.
pub fn water_rows()
    ensures { WaterRows }
{}

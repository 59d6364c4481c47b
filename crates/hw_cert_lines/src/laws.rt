//! What one more line changes, and that what is kept of lines says all that later ones need.

ghost use Rattle.hw_cert_lines.specs.Laws.{LinesPushed, ClausePushed, TablePushed, DeletionPushed, TollPushed, TariffPushed, BoundPushed, ValidTolls, ValidDeletes, ClosedEnds, KeptLive, KeptNumbers, KeptPushed, KeptVerdict};
ghost use Rattle.hw_cert_lines.specs.PriceRows.{PriceLineRows};
ghost use Rattle.hw_cert_lines.specs.Rows.{RefusalRows};

/// What any line changes.
pub fn lines_pushed()
    ensures { LinesPushed }
{}

/// What a clause line changes: its own number is live.
pub fn clause_pushed()
    ensures { ClausePushed }
{}

/// What a table changes: the best.
pub fn table_pushed()
    ensures { TablePushed }
{}

/// What a deletion changes: its numbers are live no more.
pub fn deletion_pushed()
    ensures { DeletionPushed }
{}

/// What a line that declares a toll changes: its toll is the last one.
pub fn toll_pushed()
    ensures { TollPushed }
{}

/// What a tariff changes: its prices are in force.
pub fn tariff_pushed()
    ensures { TariffPushed }
{}

/// What a bound changes: it is the last one.
pub fn bound_pushed()
    ensures { BoundPushed }
{}

/// Valid lines declare tolls of the problem alone, and put prices in force on these alone.
pub fn valid_tolls()
    ensures { ValidTolls }
{}

/// Valid lines delete only numbers of earlier clause lines.
pub fn valid_deletes()
    ensures { ValidDeletes }
{}

/// Valid lines end with a clause line without literals exactly where they have one.
pub fn closed_ends()
    ensures { ClosedEnds }
{}

/// The clause that is kept under a number is the live one.
pub fn kept_live()
    ensures { KeptLive }
{}

/// The kept numbers are those of the live clauses, in order.
pub fn kept_numbers()
    ensures { KeptNumbers }
{}

/// What is kept after one more line needs of the lines before only what was kept.
pub fn kept_pushed()
    ensures { KeptPushed }
{}

/// The verdict needs only what is kept.
pub fn kept_verdict()
    ensures { KeptVerdict }
{}

/// Worked rows: why lines after a small certificate are refused.
pub fn refusal_rows()
    ensures { RefusalRows }
{}

/// Worked rows: why lines about tolls and prices are refused.
pub fn price_line_rows()
    ensures { PriceLineRows }
{}

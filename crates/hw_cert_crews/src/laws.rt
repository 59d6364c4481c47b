//! The laws of own lines that are handed on, each a function without a body.

ghost use Rattle.hw_cert_crews.specs.Laws.{BlankTied, LineRelayed, OthersKept, LineCounted};
ghost use Rattle.hw_cert_crews.specs.Crews.{CrewBegins, CrewRelays, CrewNew};

/// A page without lines is tied to any lines.
pub fn blank_tied()
    ensures { BlankTied }
{}

/// What is handed on for a valid own line is valid where it comes, and the page stays tied.
pub fn line_relayed()
    ensures { LineRelayed }
{}

/// Every other page stays tied, and apart.
pub fn others_kept()
    ensures { OthersKept }
{}

/// What a line that is handed on changes of counts, of lemmas and of the end.
pub fn line_counted()
    ensures { LineCounted }
{}

/// Before any line all pages are tied.
pub fn crew_begins()
    ensures { CrewBegins }
{}

/// One more valid line of a page leaves the shared lines valid and all pages tied and apart.
pub fn crew_relays()
    ensures { CrewRelays }
{}

/// Among more Lemma lines than pages two are of one page, and the later one is fresh.
pub fn crew_new()
    ensures { CrewNew }
{}

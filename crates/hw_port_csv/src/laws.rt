//! What the table says.

ghost use Rattle.hw_port_csv.specs.Laws.{RecordsAreTrue, SameColumns, ShipsInOrder, TableReadsBack, TimesAreTrue};
ghost use Rattle.hw_port_csv.specs.Rows.{TableRows};

/// What a reader of CSV reads is the header and the ships' records, whatever commas and quotes are in the names.
pub fn table_reads_back()
    ensures { TableReadsBack }
{}

/// Each record has as many fields as the header.
pub fn same_columns()
    ensures { SameColumns }
{}

/// The ships are those of the timetable, each once: by their slots, and by their numbers where the slots are alike.
pub fn ships_in_order()
    ensures { ShipsInOrder }
{}

/// Of a timetable that the port permits each record of a ship that sails has its sailing draft, its allowed draft, a waypoint
/// that limits this, with the clearance there, which is kept, and its cargo. That of a ship that stays has empty fields.
pub fn records_are_true()
    ensures { RecordsAreTrue }
{}

/// The time of a slot is the date and time that stands its minutes after the start of slot 0, where the port gives that, and
/// otherwise the number of its minutes.
pub fn times_are_true()
    ensures { TimesAreTrue }
{}

/// Worked rows: plans of a small port with its tide.
pub fn table_rows()
    ensures { TableRows }
{}

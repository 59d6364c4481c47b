//! What a tide table's bytes tell.

ghost use Rattle.hw_tide.specs.Faults.{FaultTold};
ghost use Rattle.hw_tide.specs.Laws.{OneList, SomeList};
ghost use Rattle.hw_tide.specs.Told.{TableTold, TideTold};

/// The records of given bytes are one list.
pub fn one_list()
    ensures { OneList }
{}

/// Any bytes have a list of records, if only an empty one.
pub fn some_list()
    ensures { SomeList }
{}

/// A table is read as these levels exactly where its records tell them.
pub fn table_told()
    ensures { TableTold }
{}

/// A table is read as a tide exactly where the tide is that of its records: in each row and
/// column the height by the formula from the two water records around it, or the record's own.
pub fn tide_told()
    ensures { TideTold }
{}

/// A table is refused for a fault exactly where that is its first one: the header's, else that
/// of the first bad record after records without fault, else that there is no record.
pub fn fault_told()
    ensures { FaultTold }
{}

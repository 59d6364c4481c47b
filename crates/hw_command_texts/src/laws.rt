//! The laws of listings and of tables: functions without a body.

ghost use Rattle.hw_command_texts.specs.Laws.{ExplainsAsListed, FlattensAsListed, OneListing, OneTable, TablesAsVerified};

/// The bytes of the inputs decide the report, unless a call fails or memory runs out.
pub fn one_listing()
    ensures { OneListing }
{}

/// The bytes of the inputs and of the certificate decide the table, unless a call fails or memory runs out.
pub fn one_table()
    ensures { OneTable }
{}

/// What `verify` shows is put into the table, and what it refuses is refused.
pub fn tables_as_verified()
    ensures { TablesAsVerified }
{}

/// What `flatten_port` lists is the one text of the port's flat problem, which reads back as it.
pub fn flattens_as_listed()
    ensures { FlattensAsListed }
{}

/// What `explain_port` lists has a line for each restriction, which says of timetables what that does.
pub fn explains_as_listed()
    ensures { ExplainsAsListed }
{}

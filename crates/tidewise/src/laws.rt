//! What the program tells of itself, by worked rows.

ghost use Rattle.tidewise.specs.Rows.{VersionRows};

/// Worked rows: the version of a build with a name, and of one without.
pub fn version_rows()
    ensures { VersionRows }
{}

//! The tide at a waypoint, as a picture shows it.

ghost use Rattle.std.specs.Prelude.{◌≡◌, ◌<◌, ◌≤◌};
ghost use Rattle.hw_tide.specs.Twelfths.{InLimits};
ghost use Rattle.hw_chart_waters.specs.Columns.{column_height};

use hw_model::Slot;
use hw_tide::Tide;
use std::marker::Model;

/// The rows of a tide table that a picture shows, at the waypoint of this place.
#[derive(Drop)]
pub struct Column<'t> {
    pub tide: &'t Tide,
    pub place: u32,
    /// How many rows are shown, from the first one on.
    pub rows: u32,
    /// How many slots are shown: 1 to 1535, and no fewer than rows.
    pub span: u32,
    /// The minutes of a slot: 0 to 1440.
    pub minutes: u32,
    /// The minutes from midnight to the first row: below 1440.
    pub midnight: u32,
}

impl<'t> Model for Column<'t> {
    ghost use Rattle.hw_chart_waters.specs.Columns.{ColumnParts, IsColumn};

    ghost Value = { ColumnParts };

    ghost view = { λ c. record { tide = c.tide.now; place = c.place; rows = c.rows; span = c.span; minutes = c.minutes; midnight = c.midnight } };

    ghost invariant = { λ c. IsColumn (record { tide = c.tide.now; place = c.place; rows = c.rows; span = c.span; minutes = c.minutes; midnight = c.midnight }) };
}

impl Column<'_> {
    /// How many rows are shown.
    pub fn rows(&self) -> u32
        ensures value { result ≡ self.now.rows }
        ensures few { result ≤ 1_535 }
    {
        self.rows
    }

    /// How many slots are shown.
    pub fn span(&self) -> u32
        ensures value { result ≡ self.now.span }
        ensures some { 0 < result }
    {
        self.span
    }

    /// The minutes of a slot.
    pub fn minutes(&self) -> u32
        ensures value { result ≡ self.now.minutes }
        ensures few { result ≤ 1_440 }
    {
        self.minutes
    }

    /// The minutes from midnight to the first row.
    pub fn midnight(&self) -> u32
        ensures value { result ≡ self.now.midnight }
        ensures few { result < 1_440 }
    {
        self.midnight
    }

    /// The height in a row, in centimetres.
    pub fn height(&self, row: Slot) -> i32
        requires { row < self.now.rows }
        ensures value { result ≡ column_height self.now row }
        ensures limits { InLimits result }
    {
        self.tide.height(row, self.place)
    }
}

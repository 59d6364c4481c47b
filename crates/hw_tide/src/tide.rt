//! Tides.

ghost use Rattle.std.specs.Prelude.{◌≡◌, ◌<◌};
ghost use Rattle.hw_tide.specs.Twelfths.{InLimits};
ghost use Rattle.hw_tide.specs.Levels.{height_at};

use std::marker::Model;

/// The heights of the water in centimetres, row by row: a row for each slot from 0 on, with a
/// column for each waypoint.
///
/// It has 1 to 2048 rows, and heights from -2000 to 2000.
#[derive(Drop)]
pub struct Tide {
    pub rows: u32,
    pub columns: u32,
    pub heights: Vec<i32>,
}

impl Model for Tide {
    ghost use Rattle.hw_tide.specs.Levels.{TideParts, IsTide};

    ghost Value = { TideParts };

    ghost view = { λ t. record { rows = t.rows; columns = t.columns; heights = t.heights.items } };

    ghost invariant = { λ t. IsTide (record { rows = t.rows; columns = t.columns; heights = t.heights.items }) };
}

impl Tide {
    /// The height in a row and a column, in centimetres.
    pub fn height(&self, row: u32, column: u32) -> i32
        requires row_in { row < self.now.rows }
        requires column_in { column < self.now.columns }
        ensures value { result ≡ height_at self.now row column }
        ensures limits { InLimits result }
    {
        self.heights[row as usize * self.columns as usize + column as usize]
    }
}

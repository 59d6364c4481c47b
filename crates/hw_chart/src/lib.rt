//! What the pictures of plans have in common: a head that says what was proved, a legend, windows over slots, rows in the
//! order of a timetable, panels of tugs, and a grid.
#![tactic(auto)]

mod course;
mod grid;
mod hatch;
mod heading;
mod hours;
mod laws;
mod layout;
mod legend;
mod levels;
mod outcome;
mod panel;
mod row;
mod style;

pub use course::{Course, course_at};
pub use grid::{Axis, MINUTES, SLOTS, Scale, put_grid, put_line_path, put_span_end, step};
pub use hatch::{HATCH, put_hatch};
pub use heading::{put_ground, put_heading};
pub use hours::{put_planned_hours, put_unplanned_hours};
pub use laws::two_lines_hold;
pub use layout::{place, plot, put_pin, put_stripe, rank};
pub use legend::{
    Entry, LegendPlace, Sample, legend_begin, next_place, put_entries, put_entry_where,
};
pub use levels::{Full, Rising, Whole, greatest, meets, reaches, touches_top};
pub use outcome::{CargoUnit, Outcome, cargo_piece, meaning, put_badge, title};
pub use panel::{Panel, put_planned_panel, put_unplanned_panel};
pub use row::{
    Sailings, put_bar, put_bars_begin, put_moves_window, put_no_slot, put_sailing_mark,
    put_sailing_steps, put_sailings_begin, put_stays,
};
pub use style::{STYLE, put_style};

//! The high and low waters of a tide table: when they are, how high, and where a picture has room to name them.
//!
//! A high water is a longest run of rows of one height with a lower row before it and after it, a low water one with a higher
//! row on both sides. It takes no memory. Laws say that the runs that are found are exactly those, and that labels don't meet.
#![tactic(auto)]

mod column;
mod label;
mod laws;
mod stand;
mod waters;
mod width;

pub use column::Column;
pub use laws::{
    labels_are_waters, labels_lie_apart, labels_lie_on_plot, stands_are_waters, water_rows,
};
pub use stand::{Stand, WaterKind};
pub use waters::put_waters;

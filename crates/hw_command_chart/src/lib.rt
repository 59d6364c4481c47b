//! `chart` of a flat text, a port or the repair of either by a plan, and `chart clash` of a port: the plan
//! that a certificate of any version shows is drawn, or the restrictions of a clash that was found.
//!
//! The certificate is checked to its end before the first byte is sent, since the picture's title
//! says what it proves. The picture is then sent piece by piece, and never held whole. A clash and its
//! certificate are read and checked as by `check clash`, and refused in the same words.
#![tactic(auto)]

mod charting;
mod charting_clashes;
mod clash_laws;
mod drawing;
mod drawing_clashes;
mod laws;
mod repairing;

pub use charting::chart;
pub use charting_clashes::chart_clash;
pub use clash_laws::one_clash_chart;
pub use laws::{charts_as_checked, charts_as_verified, one_chart, texts_decide_chart};

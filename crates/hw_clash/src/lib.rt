//! Why nothing fits: restrictions of a problem that can't be met together, none of which can be
//! left out. Where a plan is repaired, each ship's wish is one more restriction.
//!
//! A part keeps some restrictions and drops the cargo; it permits exactly the timetables that meet
//! the restrictions it keeps. Finding a clash means solving parts, and its text can be checked by
//! itself. In small problems the tests find the same clash by trying every list of slots.
#![tactic(auto)]

mod asking;
mod clashing;
mod fault;
mod forms;
mod laws;
mod parting;
mod reading;
mod text;
mod trying;
mod wished;

pub use clashing::{Clashed, clash};
pub use fault::{ClashFault, ClashWord};
pub use laws::{
    clash_means, clash_rows, one_clash, one_clash_text, part_cargo, part_fits, part_of_all,
    part_permits, part_rows, part_rules, part_value, text_rows, wishes_mean, written_reads,
};
pub use parting::part;
pub use reading::read_clash;
pub use text::ClashText;
pub use wished::WishedFlat;

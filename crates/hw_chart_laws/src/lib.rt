//! Laws of whole pictures: each is one tree of elements, its parts share no line, its bars and blocks are the slots of the
//! rules, and the plan and the drafts can be read back from it.
//!
//! There is no code. Each law is a public function without a body whose clause is the statement.
#![tactic(auto)]

mod laws;

pub use laws::{
    bars_are_slots, blocks_are_occupations, flat_parts_lie_apart, flat_pictures_are_trees,
    flat_plans_read_back, flat_rows_read_back, full_bars_are_full_drafts, hatch_fetches_nothing,
    hatches_are_closings, lanes_are_blocks, one_way_is_seen, port_parts_lie_apart,
    port_pictures_are_trees, port_plans_read_back, port_rows_read_back, reasons_are_told,
    style_fetches_nothing,
};

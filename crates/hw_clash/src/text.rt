//! A clash as its text gives it.

use hw_flat::Timetable;
use std::marker::Model;

/// Kept restrictions, ascending, and for each of them a timetable that meets the others.
#[derive(Drop)]
pub struct ClashText {
    pub kept: Vec<u32>,
    pub drops: Vec<Timetable>,
}

impl Model for ClashText {
    ghost use Rattle.hw_clash.specs.Clashes.{Clash};

    ghost Value = { Clash };

    ghost view = { λ t. record { kept = t.kept.items; drops = t.drops.items } };
}

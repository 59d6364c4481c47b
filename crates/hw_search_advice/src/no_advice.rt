//! The adviser that has nothing to say.

use crate::adviser::{Advice, Adviser, Bounding, Scene};
use crate::stop::AdviceStop;
use hw_flat::Timetable;
use hw_model::{Lit, NoMemory};
use std::alloc::Global;

/// Says nothing, knows no bound, proposes no timetable and prefers no literal.
#[derive(Clone, Copy)]
pub struct NoAdvice;

impl Adviser for NoAdvice {
    fn advise(&mut self, _alloc: Global, _scene: &Scene<'_>) -> Result<Option<Advice>, AdviceStop> {
        Ok(None)
    }

    fn bound(&mut self, _alloc: Global, _scene: &Scene<'_>) -> Result<Option<Bounding>, NoMemory> {
        Ok(None)
    }

    fn propose(
        &mut self,
        _alloc: Global,
        _scene: &Scene<'_>,
    ) -> Result<Option<Timetable>, NoMemory> {
        Ok(None)
    }

    fn prefer(&mut self, _scene: &Scene<'_>) -> Option<Lit> {
        None
    }
}

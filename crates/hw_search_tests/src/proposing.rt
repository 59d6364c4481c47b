//! Whole solutions with an adviser that proposes a timetable: it is taken where it is permitted and better.

use crate::problems::APART;
use hw_cert::MemoryLog;
use hw_flat::{Flat, Timetable};
use hw_model::{Lit, NoMemory, Slot};
use hw_search::Solved;
use hw_search_advice::{Advice, AdviceStop, Adviser, Bounding, Scene};
use hw_search_advised::prove;
use std::alloc::Global;
use std::test::Fail;

/// An adviser that proposes the same timetable again and again, and says nothing else.
#[derive(Drop)]
struct Proposer {
    slots: [Slot; 2],
}

impl Adviser for Proposer {
    fn advise(&mut self, _alloc: Global, _scene: &Scene<'_>) -> Result<Option<Advice>, AdviceStop> {
        Ok(None)
    }

    fn bound(&mut self, _alloc: Global, _scene: &Scene<'_>) -> Result<Option<Bounding>, NoMemory> {
        Ok(None)
    }

    fn propose(
        &mut self,
        alloc: Global,
        _scene: &Scene<'_>,
    ) -> Result<Option<Timetable>, NoMemory> {
        Ok(Some(Timetable::from_slots(alloc, &self.slots)?))
    }

    fn prefer(&mut self, _scene: &Scene<'_>) -> Option<Lit> {
        None
    }
}

// Whether a solution of two ships with this proposal ends with this timetable as a best one.
fn ends_with(alloc: Global, slots: [Slot; 2], best: [Slot; 2]) -> Result<bool, Fail> {
    let flat = Flat::read(alloc, APART)?;
    let mut log = MemoryLog::new(alloc);
    let proved = prove(alloc, &flat, 109, Proposer { slots }, &mut log);
    match proved.solved {
        Solved::Optimal { table, .. } => Ok(table.as_slice() == best.as_slice()),
        _ => Ok(false),
    }
}

// What is proposed, and the best timetable that is found then. Alone the search finds 2, 0.
const PROPOSED: [([Slot; 2], [Slot; 2]); 4] = [
    ([0, 2], [0, 2]),
    ([2, 0], [2, 0]),
    ([2, 2], [2, 0]),
    ([0, 3], [2, 0]),
];

#[test]
fn a_permitted_timetable_is_taken(rt: HostRuntime) -> Result<(), Fail> {
    for (slots, best) in PROPOSED {
        assert!(rt;
            ends_with(rt.alloc(), slots, best)?,
            "{} {}",
            slots[0],
            slots[1]
        );
    }
    Ok(())
}

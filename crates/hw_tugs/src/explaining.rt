//! The clause of a refuted reduction.
//!
//! Loosens it against one slot in which the fleet is exceeded, so that a test looks at each job once.
ghost use Rattle.std.specs.Prelude.{◌≡◌, ◌<◌, ◌≤◌, ◌+◌, ℕ, All, AllPairs, IfOk, Some, length, map, slice_index};
ghost use Rattle.hw_model.specs.Limits.{JobFits, TugsFit};
ghost use Rattle.hw_model.specs.Problem.{horizon};
ghost use Rattle.hw_model.specs.Rooms.{RoomFits};
ghost use Rattle.hw_model.specs.Refuting.{IsSourceOf};
ghost use Rattle.hw_prop.specs.Finds.{Explanation, Finds};
ghost use Rattle.hw_prop.specs.Ruled.{rule_of};
ghost use Rattle.hw_tugs.specs.Fleets.{TellsFleet};
ghost use Rattle.hw_tugs.specs.Held.{IsForced};
ghost use Rattle.hw_tugs.specs.Over.{CutsAt};

use crate::cutting::{Cut, tug_cut};
use crate::rule::TugsTest;
use hw_flat::{Job, Room, ShipId, Slot};
use hw_lits::{Clause, Found};
use hw_model::{NoMemory, Rule};
use hw_prop::{Refuter, Spoken, clause_of};
use hw_rules::forced_tugs;
use std::alloc::Global;

/// Jobs that certainly hold more tugs in one slot than the fleet has in it.
#[derive(Clone, Copy)]
struct AtSlot<'f> {
    fleet: u32,
    jobs: &'f [Job],
    slot: Slot,
}

impl<'f> Refuter for AtSlot<'f> {
    ghost use Rattle.std.specs.Prelude.{◌≤◌, All, length};
    ghost use Rattle.hw_model.specs.declared.limits.TheConstants.{MOST_SHIPS};
    ghost use Rattle.hw_model.specs.Limits.{JobFits};
    ghost use Rattle.hw_tugs.specs.Over.{OverAt};

    ghost refutes = { λ t room. OverAt t.fleet t.jobs.now t.slot room };

    ghost serves = { λ t ships slots. (length t.jobs.now ≤ MOST_SHIPS) × All (JobFits ships) t.jobs.now };

    fn refuted(&self, room: &Room) -> bool {
        u64::from(self.fleet) < forced_tugs(self.jobs, room, self.slot)
    }
}

/// The clause of a reduction that exceeds the fleet of a slot, loosened. `trial` is a room of the
/// same size, with any content.
pub(crate) fn cut_clause(
    alloc: Global,
    test: &TugsTest<'_>,
    room: &Room,
    trial: &mut Room,
    cut: Cut,
    ships: &[ShipId],
) -> Result<Clause, NoMemory>
    requires source_in { IsSourceOf test.now.by.flat.now test.now.by.source }
    requires rule { rule_of test.now.by.flat.now test.now.by.source ≡ Some (Rule.Tugs test.now.rule.fleet test.now.rule.later.now test.now.rule.jobs.now) }
    requires fits { TugsFit test.now.by.flat.now.ships test.now.rule.fleet test.now.rule.later.now test.now.rule.jobs.now }
    requires fleets { TellsFleet (horizon test.now.by.flat.now) test.now.rule.fleet test.now.rule.later.now test.now.fleets.now }
    requires room { RoomFits test.now.by.flat.now room.now }
    requires cut { CutsAt test.now.fleets.now test.now.rule.jobs.now (horizon test.now.by.flat.now) room.now cut }
    requires ships { ships.now ≡ map (λ job. job.ship) test.now.rule.jobs.now }
    requires trial { trial.old.ships ≡ test.now.by.flat.now.ships }
    ensures worth { IfOk result (Explanation test.now.by.flat.now test.now.by.source test.now.by.best room.now) }
    ensures trial { trial.new.ships ≡ test.now.by.flat.now.ships }
{
    let shape = test.by.flat.shape();
    let spoken = Spoken {
        shape,
        ships,
        pairs: &[],
    };
    let at = AtSlot {
        fleet: test.fleets.at(cut.slot as usize),
        jobs: test.rule.jobs,
        slot: cut.slot,
    };
    trial.copy_from(room);
    clause_of(alloc, &at, &spoken, room, trial, cut.reduction)
}

/// Quiet exactly where the rule is quiet in the room, else a clause. The load is the room's, and a
/// quiet answer takes no memory.
pub(crate) fn tugs_step(
    alloc: Global,
    test: &TugsTest<'_>,
    room: &Room,
    load: &[u64],
    trial: &mut Room,
    ships: &[ShipId],
) -> Result<Found, NoMemory>
    requires source_in { IsSourceOf test.now.by.flat.now test.now.by.source }
    requires rule { rule_of test.now.by.flat.now test.now.by.source ≡ Some (Rule.Tugs test.now.rule.fleet test.now.rule.later.now test.now.rule.jobs.now) }
    requires fits { TugsFit test.now.by.flat.now.ships test.now.rule.fleet test.now.rule.later.now test.now.rule.jobs.now }
    requires fleets { TellsFleet (horizon test.now.by.flat.now) test.now.rule.fleet test.now.rule.later.now test.now.fleets.now }
    requires room { RoomFits test.now.by.flat.now room.now }
    requires each_slot { length load.now ≡ horizon test.now.by.flat.now }
    requires small { (slot : ℕ) → slot < length load.now → slice_index load.now slot ≤ 10_000 }
    requires forced { IsForced test.now.rule.jobs.now room.now load.now }
    requires ships { ships.now ≡ map (λ job. job.ship) test.now.rule.jobs.now }
    requires trial { trial.old.ships ≡ test.now.by.flat.now.ships }
    ensures found { IfOk result (Finds test.now.by.flat.now test.now.by.source test.now.by.best room.now) }
    ensures trial { trial.new.ships ≡ test.now.by.flat.now.ships }
{
    let _shape = test.by.flat.shape();
    match tug_cut(test.rule.jobs, test.fleets, room, load) {
        None => Ok(Found::Quiet),
        Some(cut) => Ok(Found::Clause(cut_clause(alloc, test, room, trial, cut, ships)?)),
    }
}

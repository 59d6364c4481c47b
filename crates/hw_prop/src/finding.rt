//! From a refuted reduction of a room to the clause that explains it.

ghost use Rattle.std.specs.Prelude.{◌≡◌, ◌≤◌, ◌<◌, All, IfOk};
ghost use Rattle.hw_prop.specs.Reductions.{IsCut, reduced, IsQuiet};
ghost use Rattle.hw_prop.specs.Speaks.{IsLocal, IsExplanation, FindsBy};
ghost use Rattle.hw_prop.specs.Plain.{Climb, ClimbPairs};
ghost use Rattle.hw_model.specs.Problem.{shape_of};
ghost use Rattle.hw_model.specs.Rooms.{RoomFits};
ghost use Rattle.hw_model.specs.Refuting.{Refutes, IsSourceOf};
ghost use Rattle.hw_prop.specs.Speaks.{SpokenOf};
ghost use Rattle.hw_prop.specs.Finds.{Explanation, Finds};

use crate::loosening::explain;
use crate::reduction::{Reduction, edge_at, reduce};
use crate::refuter::{BySource, Refuter, Spoken};
use crate::shaving::shave;
use hw_flat::{Flat, Room, ShipId, Source};
use hw_lits::{Clause, Found};
use hw_model::{MOST_SHIPS, NoMemory};
use std::alloc::Global;

/// The clause of a refuted reduction of a room, loosened. `trial` is a copy of the room, and is
/// overwritten.
pub fn clause_of<R: Refuter>(
    alloc: Global,
    refuter: &R,
    spoken: &Spoken<'_>,
    room: &Room,
    trial: &mut Room,
    c: Reduction,
) -> Result<Clause, NoMemory>
    requires few_ships { spoken.now.shape.ships ≤ MOST_SHIPS }
    requires same { trial.old ≡ room.now }
    requires same_ships { room.now.ships ≡ spoken.now.shape.ships }
    requires same_slots { room.now.slots ≡ spoken.now.shape.slots }
    requires all_ships { All (λ v. v < spoken.now.shape.ships) spoken.now.ships.now }
    requires all_pairs { All (λ p. (p.0 < p.1) × (p.1 < spoken.now.shape.ships)) spoken.now.pairs.now }
    requires ships { Climb 0 spoken.now.shape.ships spoken.now.ships.now }
    requires pairs { ClimbPairs 0 0 spoken.now.shape.ships spoken.now.pairs.now }
    requires local { IsLocal (R.refutes refuter.now) spoken.now.ships.now spoken.now.pairs.now }
    requires serves { R.serves refuter.now spoken.now.shape.ships spoken.now.shape.slots }
    requires cut { IsCut (R.refutes refuter.now) room.now c }
    ensures worth { IfOk result (λ clause. IsExplanation (R.refutes refuter.now) spoken.now.shape spoken.now.ships.now spoken.now.pairs.now room.now clause) }
    ensures ships { trial.new.ships ≡ spoken.now.shape.ships }
    ensures slots { trial.new.slots ≡ spoken.now.shape.slots }
{
    let _ships = room.ships();
    reduce(trial, c);
    explain(alloc, refuter, spoken, edge_at(c), room, trial)
}

/// Quiet exactly where no reduction of the room is refuted, else a clause. Tries each reduction of
/// the ships and pairs that are spoken of.
///
/// `trial` is a room of the same size, with any content. It costs one test, two for each ship and
/// two for each open pair, and a quiet answer takes no memory.
pub fn find<R: Refuter>(
    alloc: Global,
    refuter: &R,
    spoken: &Spoken<'_>,
    room: &Room,
    trial: &mut Room,
) -> Result<Found, NoMemory>
    requires few_ships { spoken.now.shape.ships ≤ MOST_SHIPS }
    requires same_ships { room.now.ships ≡ spoken.now.shape.ships }
    requires same_slots { room.now.slots ≡ spoken.now.shape.slots }
    requires trial_ships { trial.old.ships ≡ spoken.now.shape.ships }
    requires trial_slots { trial.old.slots ≡ spoken.now.shape.slots }
    requires all_ships { All (λ v. v < spoken.now.shape.ships) spoken.now.ships.now }
    requires all_pairs { All (λ p. (p.0 < p.1) × (p.1 < spoken.now.shape.ships)) spoken.now.pairs.now }
    requires ships { Climb 0 spoken.now.shape.ships spoken.now.ships.now }
    requires pairs { ClimbPairs 0 0 spoken.now.shape.ships spoken.now.pairs.now }
    requires local { IsLocal (R.refutes refuter.now) spoken.now.ships.now spoken.now.pairs.now }
    requires serves { R.serves refuter.now spoken.now.shape.ships spoken.now.shape.slots }
    ensures found { IfOk result (FindsBy (R.refutes refuter.now) spoken.now.shape spoken.now.ships.now spoken.now.pairs.now room.now) }
    ensures ships { trial.new.ships ≡ spoken.now.shape.ships }
    ensures slots { trial.new.slots ≡ spoken.now.shape.slots }
{
    trial.copy_from(room);
    match shave(refuter, trial, spoken.ships, spoken.pairs) {
        None => Ok(Found::Quiet),
        Some(c) => {
            let clause = clause_of(alloc, refuter, spoken, room, trial, c)?;
            Ok(Found::Clause(clause))
        }
    }
}

/// The clause of a source that refutes a reduction of the room, loosened.
pub fn source_clause(
    alloc: Global,
    test: &BySource<'_>,
    room: &Room,
    c: Reduction,
    ships: &[ShipId],
    pairs: &[(ShipId, ShipId)],
) -> Result<Clause, NoMemory>
    requires source_in { IsSourceOf test.now.flat.now test.now.source }
    requires room { RoomFits test.now.flat.now room.now }
    requires spoken { SpokenOf test.now.flat.now test.now.source ships.now pairs.now }
    requires cut { IsCut (Refutes test.now.flat.now test.now.source test.now.best) room.now c }
    ensures worth { IfOk result (Explanation test.now.flat.now test.now.source test.now.best room.now) }
{
    let shape = test.flat.shape();
    let mut trial = room.copy(alloc)?;
    let spoken = Spoken {
        shape,
        ships,
        pairs,
    };
    clause_of(alloc, test, &spoken, room, &mut trial, c)
}

/// Quiet exactly where the source is quiet in the room, else a clause of it, found by trying. The
/// ships and pairs are those of which the source speaks.
pub fn source_finds(
    alloc: Global,
    test: &BySource<'_>,
    room: &Room,
    trial: &mut Room,
    ships: &[ShipId],
    pairs: &[(ShipId, ShipId)],
) -> Result<Found, NoMemory>
    requires source_in { IsSourceOf test.now.flat.now test.now.source }
    requires room { RoomFits test.now.flat.now room.now }
    requires trial_ships { trial.old.ships ≡ test.now.flat.now.ships }
    requires trial_slots { trial.old.slots ≡ test.now.flat.now.slots }
    requires spoken { SpokenOf test.now.flat.now test.now.source ships.now pairs.now }
    ensures found { IfOk result (Finds test.now.flat.now test.now.source test.now.best room.now) }
    ensures ships { trial.new.ships ≡ test.now.flat.now.ships }
    ensures slots { trial.new.slots ≡ test.now.flat.now.slots }
{
    let shape = test.flat.shape();
    let spoken = Spoken {
        shape,
        ships,
        pairs,
    };
    find(alloc, test, &spoken, room, trial)
}

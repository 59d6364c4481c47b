//! Trails that are made by decided and implied literals.

ghost use Rattle.std.specs.Prelude.{◌≡◌, ◌≤◌, IfOk};
ghost use Rattle.hw_model.specs.Lits.{IsClause, IsLitOf};
ghost use Rattle.hw_model.specs.Narrowing.{truth};
ghost use Rattle.hw_trail_laws.specs.Trails.{trail_shape, room_of};

use hw_flat::{Flat, Shape};
use hw_lits::{Clause, narrow, truth};
use hw_model::{Lit, LitTruth, Narrowed};
use hw_trail::Trail;
use hw_trail_laws::Why;
use std::alloc::Global;
use std::test::Fail;

/// A literal that is decided, or a clause that implies its only literal that isn't False.
#[derive(Clone, Copy)]
pub enum Step {
    Decide(Lit),
    Imply(&'static [Lit]),
}

fn shape_of(trail: &Trail) -> Shape
    ensures value { result ≡ trail_shape trail.now }
    ensures few { result.ships ≤ 40 }
{
    let room = trail.room();
    Shape {
        ships: room.ships(),
        slots: room.slots(),
        rules: 0,
    }
}

/// The clause of these literals, of the trail's problem.
pub fn clause_of(alloc: Global, trail: &Trail, lits: &[Lit]) -> Result<Clause, Fail>
    ensures value { IfOk result (λ clause. clause ≡ lits.now) }
    ensures normal { IfOk result (λ clause. IsClause (trail_shape trail.now) lits.now) }
{
    Ok(Clause::from_lits(alloc, shape_of(trail), lits)?)
}

/// The truth of a literal in the trail's room.
pub fn truth_of(trail: &Trail, lit: Lit) -> LitTruth
    requires fits { IsLitOf trail.now.ships lit }
    ensures value { result ≡ truth (room_of trail.now) lit }
{
    truth(lit, trail.room())
}

fn decide(alloc: Global, trail: &mut Trail, lit: Lit) -> Result<(), Fail> {
    clause_of(alloc, trail, &[lit])?;
    match truth_of(trail, lit) {
        LitTruth::Free => trail.decide(lit),
        _ => return Err(Fail::new("a decision that isn't open")),
    }
    Ok(())
}

fn imply(alloc: Global, trail: &mut Trail, lits: &[Lit]) -> Result<(), Fail> {
    let clause = clause_of(alloc, trail, lits)?;
    let mut room = trail.room().copy(alloc)?;
    let Narrowed::Cut(lit) = narrow(&clause, &mut room) else {
        return Err(Fail::new("a reason that isn't unit"));
    };
    clause_of(alloc, trail, &[lit])?;
    match truth_of(trail, lit) {
        LitTruth::Free => trail.imply(lit, Why::Lemma { id: 0, clause }),
        _ => return Err(Fail::new("an implied literal that isn't open")),
    }
    Ok(())
}

/// The trail of these steps, from the whole room on.
pub fn trail_of(alloc: Global, flat: &Flat, steps: &[Step]) -> Result<Trail, Fail> {
    let mut trail = Trail::new(alloc, flat)?;
    for step in steps {
        match step {
            Step::Decide(lit) => decide(alloc, &mut trail, *lit)?,
            Step::Imply(lits) => imply(alloc, &mut trail, lits)?,
        }
    }
    Ok(trail)
}

//! The reason by a stored lemma, and what a reason's clause is.

ghost use Rattle.std.specs.Prelude.{◌≡◌, IfOk};
ghost use Rattle.hw_store.specs.Stores.{IsNotHeld};
ghost use Rattle.hw_search.specs.Askings.{IsHeldWhy};
ghost use Rattle.hw_trail_laws.specs.Trails.{reason_clause};

use hw_lits::Clause;
use hw_model::NoMemory;
use hw_store::Store;
use hw_trail_laws::Why;
use std::alloc::Global;

/// The reason by the clause that is held under a number.
pub fn lemma_of<S: Store>(alloc: Global, store: &S, id: u32) -> Result<Why, NoMemory>
    requires held { IsNotHeld (S.clauses store.now) id → ⊥ }
    ensures held { IfOk result (IsHeldWhy (S.clauses store.now) id) }
{
    match store.clause(id) {
        Some(clause) => {
            let clause = clause.copy(alloc)?;
            Ok(Why::Lemma { id, clause })
        }
        None => unreachable!(),
    }
}

/// The clause of a reason.
pub fn clause_of(why: &Why) -> &Clause
    ensures value { result.now ≡ reason_clause why.now }
{
    match why {
        Why::Lemma { clause, .. } | Why::Source { clause, .. } | Why::Priced { clause } => clause,
    }
}

//! Clauses in normal form.

ghost use Rattle.std.specs.Prelude.{◌≡◌, ◌≢◌, ◌<◌, ◌≤◌, length, Some, slice_get, IfOk, OnOk, IfErr};
ghost use Rattle.hw_model.specs.Lits.{first_bad, IsClause};
ghost use Rattle.hw_lits.specs.Normal.{IsNormal};

use crate::fault::ClauseFault;
use crate::form::test_form;
use hw_model::{Lit, MOST_SHIPS, NoMemory, Shape};
use std::alloc::Global;
use std::marker::Model;

/// Literals of a clause: two bounds of each ship and an order of each pair.
pub const MOST_LITERALS: u32 = 2 * MOST_SHIPS + MOST_SHIPS * (MOST_SHIPS - 1) / 2;

/// A clause in normal form, seen as the list of its literals.
///
/// Bounds of ships come first, ascending by ship, then orders, ascending by pair. A ship has at
/// most one lower bound and one upper one, which leave some slots between them out, and a pair at
/// most one order. So there are at most `MOST_LITERALS` literals.
#[derive(Debug, Drop)]
pub struct Clause {
    lits: Vec<Lit>,
}

impl Model for Clause {
    ghost use Rattle.std.specs.Prelude.{List};
    ghost use Rattle.hw_model.specs.declared.lit.Lit.{Lit};
    ghost use Rattle.hw_lits.specs.Normal.{IsNormal};

    ghost Value = { List Lit };

    ghost view = { λ c. c.lits.items };

    ghost invariant = { λ c. IsNormal c.lits.items };
}

impl Clause {
    ghost use Rattle.hw_lits.specs.Faults.{TellsBad};

    /// The clause of these literals, in one pass. Otherwise the first bad one from the left.
    pub fn from_lits(alloc: Global, shape: Shape, lits: &[Lit]) -> Result<Clause, ClauseFault>
        requires few_ships { shape.ships ≤ MOST_SHIPS }
        ensures value { IfOk result (λ clause. clause ≡ lits.now) }
        ensures normal { OnOk result (IsClause shape lits.now) }
        ensures refused { IfErr result (λ fault. TellsBad fault (first_bad shape lits.now)) }
    {
        test_form(shape, lits)?;
        let lits = Vec::from_slice(alloc, lits)?;
        Ok(Clause { lits })
    }

    /// The same of a list that it takes, in one pass and without a copy.
    pub fn from_list(shape: Shape, lits: Vec<Lit>) -> Result<Clause, ClauseFault>
        requires few_ships { shape.ships ≤ MOST_SHIPS }
        ensures value { IfOk result (λ clause. clause ≡ lits.items) }
        ensures normal { OnOk result (IsClause shape lits.items) }
        ensures refused { IfErr result (λ fault. TellsBad fault (first_bad shape lits.items)) }
        ensures no_memory { IfErr result (λ fault. fault ≢ ClauseFault.NoMemory) }
    {
        test_form(shape, &lits)?;
        Ok(Clause { lits })
    }

    /// The clause of literals that are known to be in normal form. They are neither tested nor
    /// copied.
    pub fn of_normal(lits: Vec<Lit>) -> Clause
        requires normal { IsNormal lits.items }
        ensures value { result ≡ lits.items }
    {
        Clause { lits }
    }

    /// A clause of the same literals.
    pub fn copy(&self, alloc: Global) -> Result<Clause, NoMemory>
        ensures value { IfOk result (λ clause. clause ≡ self.now) }
    {
        let lits = Vec::from_slice(alloc, &self.lits)?;
        Ok(Clause { lits })
    }

    /// The number of its literals.
    pub fn len(&self) -> u32
        ensures value { result ≡ length self.now }
        ensures few { result ≤ MOST_LITERALS }
        ensures normal { IsNormal self.now }
    {
        self.lits.len() as u32
    }

    /// The literal at a place, counted from 0.
    pub fn lit(&self, place: u32) -> Lit
        requires place_in { place < length self.now }
        ensures value { slice_get self.now place ≡ Some result }
    {
        self.lits[place as usize]
    }

    /// The literals, in order.
    pub fn as_slice(&self) -> &[Lit]
        ensures value { result.now ≡ self.now }
        ensures normal { IsNormal self.now }
    {
        &self.lits
    }
}

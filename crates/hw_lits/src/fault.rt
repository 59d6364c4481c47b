//! Why a list of literals is no clause.

ghost use Rattle.std.specs.Prelude.{◌≡◌};
ghost use Rattle.hw_lits.specs.declared.fault.ClauseFault.TheVariants.{NoMemory};

use std::alloc::AllocError;

/// Why literals are no clause of a shape: the place of the first bad one, from 0.
#[derive(Clone, Copy, Debug)]
pub enum ClauseFault {
    /// Its ships, its slot or its pair are not in range.
    Range { place: u32 },
    /// It is in range, but breaks the normal form with the literals before it.
    NotNormal { place: u32 },
    NoMemory,
}

impl From<AllocError> for ClauseFault {
    ghost from_gives = { λ _ e. e ≡ NoMemory };

    fn from(_e: AllocError) -> ClauseFault {
        ClauseFault::NoMemory
    }
}

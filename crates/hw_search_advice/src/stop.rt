//! Why a search isn't advised any more.

ghost use Rattle.std.specs.Prelude.{◌≡◌};
ghost use Rattle.hw_search_advice.specs.declared.stop.AdviceStop.TheVariants.{NoMemory};

/// Why an adviser has no answer. The search ends there.
#[derive(Clone, Copy)]
pub enum AdviceStop {
    /// Nothing is left for which to search.
    Done,
    /// Memory ran out.
    NoMemory,
}

impl From<hw_model::NoMemory> for AdviceStop {
    ghost from_gives = { λ _ e. e ≡ NoMemory };

    fn from(_e: hw_model::NoMemory) -> AdviceStop {
        AdviceStop::NoMemory
    }
}

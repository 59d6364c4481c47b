//! Plans with prices that are asked for early, and their lines.
//!
//! The adviser is silent in the first lemmas, and small problems need fewer. So here it is shown each
//! scene as if there had been more lemmas.

ghost use Rattle.std.specs.Prelude.{All};
ghost use Rattle.hw_cert_lines.specs.Valid.{LineFits};

use hw_cert::{Line, MemoryLog};
use hw_flat::{Flat, Timetable};
use hw_model::{Lit, NoMemory};
use hw_price_adviser::PricingAdviser;
use hw_search_advice::{Advice, AdviceStop, Adviser, Bounding, Scene, Standing};
use hw_search_advised::{Proved, prove};
use std::alloc::Global;

/// The adviser that finds prices, some lemmas ahead of its search.
#[derive(Drop)]
struct Early {
    adviser: PricingAdviser,
    ahead: u32,
}

/// Where a search would stand this many lemmas later.
fn later(standing: Standing, ahead: u32) -> Standing {
    Standing {
        lemmas: standing.lemmas.saturating_add(ahead),
        ..standing
    }
}

impl Adviser for Early {
    fn advise(&mut self, alloc: Global, scene: &Scene<'_>) -> Result<Option<Advice>, AdviceStop> {
        let standing = later(scene.standing, self.ahead);
        self.adviser.advise(alloc, &Scene { standing, ..*scene })
    }

    fn bound(&mut self, alloc: Global, scene: &Scene<'_>) -> Result<Option<Bounding>, NoMemory> {
        let standing = later(scene.standing, self.ahead);
        self.adviser.bound(alloc, &Scene { standing, ..*scene })
    }

    fn propose(&mut self, alloc: Global, scene: &Scene<'_>) -> Result<Option<Timetable>, NoMemory> {
        let standing = later(scene.standing, self.ahead);
        self.adviser.propose(alloc, &Scene { standing, ..*scene })
    }

    fn prefer(&mut self, scene: &Scene<'_>) -> Option<Lit> {
        let standing = later(scene.standing, self.ahead);
        self.adviser.prefer(&Scene { standing, ..*scene })
    }
}

/// A plan with prices, whose adviser is this many lemmas ahead, and its lines.
pub fn plan(alloc: Global, flat: &Flat, budget: u32, ahead: u32) -> (Proved, Vec<Line>)
    ensures fit { All (LineFits flat.now) result.1.items }
{
    let budget = budget.clamp(1, 100_000);
    let adviser = Early {
        adviser: PricingAdviser::new(budget.saturating_add(ahead), 0),
        ahead,
    };
    let mut log = MemoryLog::new(alloc);
    let proved = prove(alloc, flat, budget, adviser, &mut log);
    (proved, log.into_lines())
}

//! Conflicts on small trails, with the lemma, the level and the reasons worked out by hand.

ghost use Rattle.std.specs.Prelude.{◌≡◌, All, IsTrue};
ghost use Rattle.hw_model.specs.declared.lit.LitTruth.TheVariants.{False};
ghost use Rattle.hw_model.specs.Lits.{IsLitOf};
ghost use Rattle.hw_model.specs.Narrowing.{truth};
ghost use Rattle.hw_trail_laws.specs.Trails.{room_of};

use crate::levels::{Step, clause_of, trail_of, truth_of};
use hw_flat::Flat;
use hw_learn::{Learnt, learn};
use hw_model::Lit::{AtOrAfter, Before, First, NotFirst};
use hw_model::{Lit, LitTruth};
use hw_trail::Trail;
use std::alloc::Global;
use std::process::Abort;
use std::test::Fail;

// Three ships of three slots and no rule.
const THREE_SHIPS: &[u8] = b"flat 1\nsize 3 3\nv 1 1 1\nv 1 1 1\nv 1 1 1\nend\n";

/// Name, steps, conflict, lemma, the level to go back to, the places of its reasons.
type Row = (
    &'static str,
    &'static [Step],
    &'static [Lit],
    &'static [Lit],
    u32,
    &'static [u32],
);

const ROWS: [Row; 5] = [
    (
        "stops at the first point",
        &[
            Step::Decide(Before { ship: 0, slot: 1 }),
            Step::Imply(&[
                AtOrAfter { ship: 0, slot: 1 },
                AtOrAfter { ship: 1, slot: 1 },
            ]),
            Step::Imply(&[Before { ship: 1, slot: 1 }, AtOrAfter { ship: 2, slot: 1 }]),
        ],
        &[Before { ship: 1, slot: 1 }, Before { ship: 2, slot: 1 }],
        &[Before { ship: 1, slot: 1 }],
        0,
        &[2],
    ),
    (
        "merges two bounds",
        &[
            Step::Decide(Before { ship: 0, slot: 2 }),
            Step::Decide(Before { ship: 0, slot: 1 }),
            Step::Decide(AtOrAfter { ship: 1, slot: 1 }),
            Step::Imply(&[
                AtOrAfter { ship: 0, slot: 2 },
                Before { ship: 1, slot: 1 },
                AtOrAfter { ship: 2, slot: 1 },
            ]),
        ],
        &[
            AtOrAfter { ship: 0, slot: 1 },
            Before { ship: 1, slot: 1 },
            Before { ship: 2, slot: 1 },
        ],
        &[AtOrAfter { ship: 0, slot: 1 }, Before { ship: 1, slot: 1 }],
        2,
        &[3],
    ),
    (
        "keeps an order of a lower level",
        &[
            Step::Decide(First { v: 0, w: 1 }),
            Step::Decide(Before { ship: 2, slot: 1 }),
            Step::Imply(&[
                AtOrAfter { ship: 2, slot: 1 },
                NotFirst { v: 0, w: 1 },
                First { v: 1, w: 2 },
            ]),
            Step::Imply(&[Before { ship: 1, slot: 1 }, NotFirst { v: 1, w: 2 }]),
        ],
        &[
            AtOrAfter { ship: 1, slot: 1 },
            NotFirst { v: 0, w: 1 },
            NotFirst { v: 1, w: 2 },
        ],
        &[NotFirst { v: 0, w: 1 }, NotFirst { v: 1, w: 2 }],
        1,
        &[3],
    ),
    (
        "has one literal of a lower level",
        &[
            Step::Decide(Before { ship: 0, slot: 1 }),
            Step::Decide(AtOrAfter { ship: 1, slot: 1 }),
            Step::Decide(First { v: 0, w: 2 }),
        ],
        &[AtOrAfter { ship: 0, slot: 1 }, Before { ship: 1, slot: 1 }],
        &[AtOrAfter { ship: 0, slot: 1 }, Before { ship: 1, slot: 1 }],
        1,
        &[],
    ),
    (
        "leaves no level",
        &[
            Step::Imply(&[Before { ship: 0, slot: 1 }]),
            Step::Imply(&[
                AtOrAfter { ship: 0, slot: 1 },
                AtOrAfter { ship: 1, slot: 1 },
            ]),
            Step::Decide(Before { ship: 2, slot: 1 }),
        ],
        &[AtOrAfter { ship: 0, slot: 1 }, Before { ship: 1, slot: 1 }],
        &[],
        0,
        &[0, 1],
    ),
];

fn is_false(trail: &Trail, lit: Lit) -> bool
    requires fits { IsLitOf trail.now.ships lit }
    ensures value { IsTrue result → truth (room_of trail.now) lit ≡ False }
{
    match truth_of(trail, lit) {
        LitTruth::False => true,
        _ => false,
    }
}

fn all_false(trail: &Trail, lits: &[Lit]) -> bool
    requires fits { All (IsLitOf trail.now.ships) lits.now }
    ensures value { IsTrue result → All (λ lit. truth (room_of trail.now) lit ≡ False) lits.now }
{
    for lit in lits {
        if !is_false(trail, *lit) {
            return false;
        }
    }
    true
}

fn learnt(alloc: Global, trail: &Trail, lits: &[Lit]) -> Result<Learnt, Fail> {
    let conflict = clause_of(alloc, trail, lits)?;
    if !all_false(trail, conflict.as_slice()) {
        return Err(Fail::new("a conflict that isn't False"));
    }
    Ok(learn(alloc, trail, &conflict)?)
}

fn is_learnt(learnt: &Learnt, lemma: &[Lit], back: u32, places: &[u32]) -> bool {
    learnt.lemma.as_slice() == lemma && learnt.back == back && learnt.places.as_slice() == places
}

#[test]
fn what_conflicts_teach(rt: HostRuntime) -> Result<(), Fail> {
    let alloc = rt.alloc();
    let flat = Flat::read(alloc, THREE_SHIPS)?;
    for (name, steps, conflict, lemma, back, places) in ROWS {
        let trail = trail_of(alloc, &flat, steps)?;
        let taught = learnt(alloc, &trail, conflict)?;
        assert!(rt;
            is_learnt(&taught, lemma, back, places),
            "{name}: {taught:?}"
        );
    }
    Ok(())
}

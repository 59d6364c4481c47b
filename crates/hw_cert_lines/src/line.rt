//! The lines of a certificate, without their text.

ghost use Rattle.std.specs.Prelude.{◌≡◌, IfOk};
ghost use Rattle.hw_model.specs.Refuting.{IsSourceOf};
ghost use Rattle.hw_cert_lines.specs.Lines.{source_line};

use hw_flat::{Flat, NoMemory, ShipId, Timetable};
use hw_lits::Clause;
use hw_model::Source;
use hw_price_laws::{Tariff, Toll};
use std::alloc::Global;
use std::marker::Model;

/// Numbers of clause lines, which count from 1.
#[derive(Debug, Drop)]
pub struct Hints {
    pub items: Vec<u32>,
}

impl Model for Hints {
    ghost use Rattle.std.specs.Prelude.{List, ℕ};

    ghost Value = { List ℕ };

    ghost view = { λ h. h.items.items };
}

impl Hints {
    /// The same numbers.
    pub fn copy(&self, alloc: Global) -> Result<Hints, NoMemory>
        ensures value { IfOk result (λ hints. hints ≡ self.now) }
    {
        let items = Vec::from_slice(alloc, &self.items)?;
        Ok(Hints { items })
    }
}

/// A line of a certificate. Explanations, orders, goals, lemmas and priced lines are clause lines,
/// numbered in order; the lines that declare tolls have numbers of their own.
#[derive(Debug, Drop)]
pub enum Line {
    /// A permitted timetable with more cargo than the one before.
    Table(Timetable),
    /// The restriction of this number, a ship's window or a rule, refutes the clause's denied room.
    Explain {
        restriction: u32,
        clause: Clause,
    },
    /// The orders of three ships contradict each other there.
    Order {
        v: ShipId,
        w: ShipId,
        x: ShipId,
        clause: Clause,
    },
    /// No timetable there has more cargo than the best one.
    Goal {
        clause: Clause,
    },
    /// The clauses of the hints, in order, lead from there to a conflict.
    Lemma {
        clause: Clause,
        hints: Hints,
    },
    /// These clause lines are named no more.
    Delete {
        ids: Hints,
    },
    /// A toll of the problem. Tolls are numbered from 1, in the order of their lines.
    Toll {
        toll: Toll,
    },
    /// These prices, on tolls that earlier lines declare, are in force from here on.
    Tariff {
        tariff: Tariff,
    },
    /// The prices in force leave the clause's denied room no more cargo than the best one.
    Priced {
        clause: Clause,
    },
    /// The prices in force leave the whole problem no more cargo than this, in tenths of a tonne.
    Bound {
        bound: u64,
    },
}

impl Line {
    /// The line of a clause that a source gave.
    pub fn of_source(flat: &Flat, source: Source, clause: Clause) -> Line
        requires source { IsSourceOf flat.now source }
        ensures value { result ≡ source_line flat.now source clause }
    {
        let shape = flat.shape();
        match source {
            Source::Window { ship } => Line::Explain {
                restriction: ship,
                clause,
            },
            Source::Rule { place } => Line::Explain {
                restriction: shape.ships + place,
                clause,
            },
            Source::Order { v, w, x } => Line::Order { v, w, x, clause },
            Source::Goal => Line::Goal { clause },
        }
    }

    /// The same line, as a log that keeps its lines needs it. It copies the line's lists once.
    pub fn copy(&self, alloc: Global) -> Result<Line, NoMemory>
        ensures value { IfOk result (λ line. line ≡ self.now) }
    {
        Ok(match self {
            Line::Table(table) => Line::Table(table.copy(alloc)?),
            Line::Explain {
                restriction,
                clause,
            } => Line::Explain {
                restriction: *restriction,
                clause: clause.copy(alloc)?,
            },
            Line::Order { v, w, x, clause } => Line::Order {
                v: *v,
                w: *w,
                x: *x,
                clause: clause.copy(alloc)?,
            },
            Line::Goal { clause } => Line::Goal {
                clause: clause.copy(alloc)?,
            },
            Line::Lemma { clause, hints } => Line::Lemma {
                clause: clause.copy(alloc)?,
                hints: hints.copy(alloc)?,
            },
            Line::Delete { ids } => Line::Delete {
                ids: ids.copy(alloc)?,
            },
            Line::Toll { toll } => Line::Toll {
                toll: toll.copy(alloc)?,
            },
            Line::Tariff { tariff } => Line::Tariff {
                tariff: tariff.copy(alloc)?,
            },
            Line::Priced { clause } => Line::Priced {
                clause: clause.copy(alloc)?,
            },
            Line::Bound { bound } => Line::Bound { bound: *bound },
        })
    }
}

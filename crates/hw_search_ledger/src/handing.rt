//! The line that says why a clause holds, handed to a log.

ghost use Rattle.std.specs.Prelude.{◌≡◌, ◌∷◌, [], IfErr};
ghost use Rattle.hw_model.specs.Refuting.{IsSourceOf};
ghost use Rattle.hw_cert_lines.specs.declared.line.Line.TheVariants.{Priced};
ghost use Rattle.hw_cert_lines.specs.Lines.{source_line};
ghost use Rattle.hw_search_laws.specs.Turns.{why_lines};
ghost use Rattle.hw_cert.specs.Logs.{IsWhole};
ghost use Rattle.hw_search_ledger.specs.Handing.{StopsWithin, Hands};
ghost use Rattle.hw_search_ledger.specs.Naming.{known_number, IsOfProblem};

use hw_cert::{Line, Log, LogStop};
use hw_flat::Flat;
use hw_lits::Clause;
use hw_model::Source;
use hw_trail_laws::Why;
use std::alloc::Global;

/// The number by which a clause is named already: that of a stored lemma, or that of the line that
/// was written for it. It takes no memory.
pub(crate) fn known_number(why: &Why, written: Option<u32>) -> Option<u32>
    ensures value { result ≡ known_number why.now written }
{
    match why {
        Why::Lemma { id, .. } => Some(*id),
        Why::Source { .. } | Why::Priced { .. } => written,
    }
}

/// Hands the log the line that says why a clause holds, which it copies. A stored lemma has one.
pub fn hand_why<L: Log>(alloc: Global, flat: &Flat, why: &Why, log: &mut L) -> Result<(), LogStop>
    requires source { IsOfProblem flat.now why.now }
    requires whole { IsWhole (L.state log.old) }
    ensures hands { Hands (why_lines flat.now why.now) (L.state log.old) (L.state log.new) result }
    ensures stops { IfErr result (λ stop. StopsWithin stop (why_lines flat.now why.now) 0 (L.state log.old) (L.state log.new)) }
    ensures same_reference { L.anchor log.new ≡ L.anchor log.old }
{
    match why {
        Why::Lemma { .. } => Ok(()),
        Why::Source { source, clause } => hand_source(alloc, flat, *source, clause, log),
        Why::Priced { clause } => hand_priced(alloc, clause, log),
    }
}

fn hand_source<L: Log>(
    alloc: Global,
    flat: &Flat,
    source: Source,
    clause: &Clause,
    log: &mut L,
) -> Result<(), LogStop>
    requires source { IsSourceOf flat.now source }
    requires whole { IsWhole (L.state log.old) }
    ensures hands { Hands (source_line flat.now source clause.now ∷ []) (L.state log.old) (L.state log.new) result }
    ensures stops { IfErr result (λ stop. StopsWithin stop (source_line flat.now source clause.now ∷ []) 0 (L.state log.old) (L.state log.new)) }
    ensures same_reference { L.anchor log.new ≡ L.anchor log.old }
{
    let copied = clause.copy(alloc)?;
    let line = Line::of_source(flat, source, copied);
    log.line(&line)
}

/// Hands the log the line of a clause of prices, which it copies.
pub fn hand_priced<L: Log>(alloc: Global, clause: &Clause, log: &mut L) -> Result<(), LogStop>
    requires whole { IsWhole (L.state log.old) }
    ensures hands { Hands (Priced clause.now ∷ []) (L.state log.old) (L.state log.new) result }
    ensures stops { IfErr result (λ stop. StopsWithin stop (Priced clause.now ∷ []) 0 (L.state log.old) (L.state log.new)) }
    ensures same_reference { L.anchor log.new ≡ L.anchor log.old }
{
    let clause = clause.copy(alloc)?;
    let line = Line::Priced { clause };
    log.line(&line)
}

//! Why a line isn't valid, by what a checker keeps of the lines before it.
ghost use Rattle.std.specs.Prelude.{◌≡◌, None, false, is_none, IfOk, option_copied};
ghost use Rattle.hw_model.specs.Problem.{shape_of, IsTimetable};
ghost use Rattle.hw_model.specs.Timetables.{first_broken, cargo};
ghost use Rattle.hw_model.specs.Lits.{IsClause};
ghost use Rattle.hw_model.specs.Rooms.{RoomFits};
ghost use Rattle.hw_model.specs.Refuting.{IsSourceOf};
ghost use Rattle.hw_model.specs.Replay.{replay};
ghost use Rattle.hw_cert_lines.specs.Lines as lines;
ghost use Rattle.hw_cert_lines.specs.Valid.{LineFits, denied_room};
ghost use Rattle.hw_cert_lines.specs.Refusals as refusals;
ghost use Rattle.hw_cert_lines.specs.Kept.{clause_under};
ghost use Rattle.hw_price_tests.specs.PriceStates.{AreGood};
ghost use Rattle.hw_check.specs.Hints.{refusal_of_lemma};
ghost use Rattle.hw_check.specs.States.{LitsFit, kept_in};

use crate::clause_list::ClauseList;
use crate::pricing::{bound_refusal, priced_refusal, tariff_refusal, toll_refusal};
use hw_cert_lines::{CheckWord, Line, Refusal};
use hw_flat::{Flat, Room, Source, Timetable};
use hw_lits::{Clause, Narrowed, deny, narrow_lits};
use hw_model::NoMemory;
use hw_price_tests::PriceBook;
use hw_rules::{beats, broken, cargo, refuted, source_of};

/// A word that names no number.
pub(crate) fn refused(word: CheckWord) -> Option<Refusal>
    ensures { result ≡ refusals.refused word }
{
    Some(Refusal { word, hint: None })
}

pub(crate) fn refused_at(word: CheckWord, id: u32) -> Option<Refusal>
    ensures { result ≡ refusals.refused_at word id }
{
    Some(Refusal {
        word,
        hint: Some(id),
    })
}

/// The clause of a line, if it is a clause line.
pub(crate) fn clause_of(line: &Line) -> Option<&Clause>
    ensures { option_copied result ≡ lines.clause_of line.now }
{
    match line {
        Line::Table(_) => None,
        Line::Explain { clause, .. } => Some(clause),
        Line::Order { clause, .. } => Some(clause),
        Line::Goal { clause } => Some(clause),
        Line::Lemma { clause, .. } => Some(clause),
        Line::Delete { .. } => None,
        Line::Toll { .. } => None,
        Line::Tariff { .. } => None,
        Line::Priced { clause } => Some(clause),
        Line::Bound { .. } => None,
    }
}

/// Why what the line itself claims doesn't hold. The room is overwritten. An error says that memory
/// ran out: lines that declare a toll take some.
pub(crate) fn claim(
    flat: &Flat,
    clauses: &ClauseList,
    prices: &mut PriceBook,
    best: Option<u64>,
    line: &Line,
    room: &mut Room,
) -> Result<Option<Refusal>, NoMemory>
    requires fits { LineFits flat.now line.now }
    requires lits { LitsFit flat.now.ships clauses.now.live }
    requires good { AreGood flat.now prices.old }
    requires room { RoomFits flat.now room.old }
    ensures value { IfOk result (λ refusal. refusal ≡ refusals.claim_refusal flat.now (kept_in clauses.now prices.old best false) line.now) }
    ensures same { prices.new ≡ prices.old }
    ensures room { RoomFits flat.now room.new }
{
    Ok(match line {
        Line::Table(table) => table_refusal(flat, table, best),
        Line::Explain {
            restriction,
            clause,
        } => source_refusal(flat, source_of(flat, *restriction), best, clause, room),
        Line::Order { v, w, x, clause } => {
            let source = Source::Order {
                v: *v,
                w: *w,
                x: *x,
            };
            source_refusal(flat, source, best, clause, room)
        }
        Line::Goal { clause } => source_refusal(flat, Source::Goal, best, clause, room),
        Line::Lemma { clause, hints } => lemma_refusal(flat, clauses, clause, &hints.items, room),
        Line::Delete { ids } => delete_refusal(clauses, &ids.items),
        Line::Toll { toll } => toll_refusal(clauses.allocator(), flat, prices, toll)?,
        Line::Tariff { tariff } => tariff_refusal(prices, &tariff.dues.items),
        Line::Priced { clause } => priced_refusal(flat, prices, best, clause, room),
        Line::Bound { bound } => bound_refusal(flat, prices, *bound, room),
    })
}

fn table_refusal(flat: &Flat, table: &Timetable, best: Option<u64>) -> Option<Refusal>
    requires listed { IsTimetable flat.now table.now }
    ensures { result ≡ refusals.table_refusal (is_none (first_broken flat.now table.now)) (cargo flat.now table.now) best }
{
    if broken(flat, table).is_some() {
        return refused(CheckWord::Table);
    }
    match cargo(flat, table) {
        None => refused(CheckWord::Table),
        Some(c) => if beats(c, best) {
            None
        } else {
            refused(CheckWord::Worse)
        },
    }
}

fn source_refusal(
    flat: &Flat,
    source: Source,
    best: Option<u64>,
    clause: &Clause,
    room: &mut Room,
) -> Option<Refusal>
    requires source { IsSourceOf flat.now source }
    requires clause { IsClause (shape_of flat.now) clause.now }
    requires room { RoomFits flat.now room.old }
    ensures value { result ≡ refusals.source_refusal flat.now best source clause.now }
    ensures room { RoomFits flat.now room.new }
{
    deny_in(flat, clause, room);
    if refuted(flat, source, best, room) {
        None
    } else {
        refused(CheckWord::Refute)
    }
}

/// Makes a room of the problem the denied room of a clause.
pub(crate) fn deny_in(flat: &Flat, clause: &Clause, room: &mut Room)
    requires clause { IsClause (shape_of flat.now) clause.now }
    requires room { RoomFits flat.now room.old }
    ensures room { room.new ≡ denied_room flat.now clause.now }
    ensures fits { RoomFits flat.now room.new }
{
    let _shape = flat.shape();
    deny(clause, room);
    let _ships = room.ships();
}

fn lemma_refusal(
    flat: &Flat,
    clauses: &ClauseList,
    clause: &Clause,
    hints: &[u32],
    room: &mut Room,
) -> Option<Refusal>
    requires clause { IsClause (shape_of flat.now) clause.now }
    requires lits { LitsFit flat.now.ships clauses.now.live }
    requires room { RoomFits flat.now room.old }
    ensures value { result ≡ refusal_of_lemma flat.now clauses.now.live clause.now hints.now }
    ensures room { RoomFits flat.now room.new }
{
    match first_dead(clauses, hints) {
        Some(id) => refused_at(CheckWord::Hint, id),
        None => {
            deny_in(flat, clause, room);
            let refusal = replay_refusal(clauses, hints, room);
            let _ships = room.ships();
            refusal
        }
    }
}

/// Why the hints' clauses, in order, lead from the room to no conflict. It takes one pass over their
/// literals, up to the conflict.
fn replay_refusal(clauses: &ClauseList, hints: &[u32], room: &mut Room) -> Option<Refusal>
    requires live { refusals.first_dead clauses.now.live hints.now ≡ None }
    requires lits { LitsFit room.old.ships clauses.now.live }
    ensures value { result ≡ refusals.replay_refusal hints.now (replay room.old (refusals.named clauses.now.live hints.now)) }
    ensures same_ships { room.new.ships ≡ room.old.ships }
    ensures same_slots { room.new.slots ≡ room.old.slots }
{
    for id in hints {
        let Some(lits) = clauses.lits(*id) else {
            return refused_at(CheckWord::Hint, *id);
        };
        match narrow_lits(lits, room) {
            Narrowed::Conflict => return None,
            Narrowed::Loose { .. } => return refused_at(CheckWord::Loose, *id),
            Narrowed::Same | Narrowed::Cut(_) => {}
        }
    }
    refused(CheckWord::Conflict)
}

/// The first of these numbers that isn't live.
fn first_dead(clauses: &ClauseList, ids: &[u32]) -> Option<u32>
    ensures { result ≡ refusals.first_dead clauses.now.live ids.now }
{
    ids.iter().copied().find(|id| clauses.lits(*id).is_none())
}

fn delete_refusal(clauses: &ClauseList, ids: &[u32]) -> Option<Refusal>
    ensures { result ≡ refusals.delete_refusal (refusals.first_dead clauses.now.live ids.now) }
{
    match first_dead(clauses, ids) {
        None => None,
        Some(id) => refused_at(CheckWord::Dead, id),
    }
}

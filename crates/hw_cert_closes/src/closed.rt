//! Whether lines show that nothing in a room beats the best.

ghost use Rattle.std.specs.Prelude.{◌≡◌, ◌<◌, ◌^◌, ◌||◌, ◌∷◌, [], All, IfSome, is_some, option_copied};
ghost use Rattle.hw_cert_lines.specs.Lines as lines;
ghost use Rattle.hw_cert_lines.specs.Lines.{clause_count};
ghost use Rattle.hw_cert_lines.specs.Valid.{LineFits};
ghost use Rattle.hw_model.specs.Lits.{IsLitOf};
ghost use Rattle.hw_model.specs.Narrowing.{truth};
ghost use Rattle.hw_cert_closes.specs.Closing.{ClosedRoom, are_false, closes_room, is_clause_false};
ghost use Rattle.hw_lits.specs.Steps.{is_false};
ghost use Rattle.hw_cert_closes.specs.Numbers.{FindsLast, LastClosing, preferred};

use crate::deletions::is_deleted;
use hw_cert_lines::Line;
use hw_flat::{Flat, Room};
use hw_lits::{Clause, truth};
use hw_model::{Lit, LitTruth};

/// The clause of a line, if it is a clause line.
pub(crate) fn clause_of(line: &Line) -> Option<&Clause>
    ensures { option_copied result ≡ lines.clause_of line.now }
{
    match line {
        Line::Explain { clause, .. }
        | Line::Order { clause, .. }
        | Line::Goal { clause }
        | Line::Lemma { clause, .. }
        | Line::Priced { clause } => Some(clause),
        Line::Table(_)
        | Line::Delete { .. }
        | Line::Toll { .. }
        | Line::Tariff { .. }
        | Line::Bound { .. } => None,
    }
}

/// Whether the room makes the literal false.
fn is_false(lit: Lit, room: &Room) -> bool
    requires fits { IsLitOf room.now.ships lit }
    ensures { result ≡ is_false (truth room.now lit) }
{
    match truth(lit, room) {
        LitTruth::False => true,
        LitTruth::True | LitTruth::Free => false,
    }
}

/// Whether the room makes each literal false.
fn are_false(lits: &[Lit], room: &Room) -> bool
    requires fit { All (IsLitOf room.now.ships) lits.now }
    ensures { result ≡ are_false room.now lits.now }
{
    for lit in lits {
        if !is_false(*lit, room) {
            return false;
        }
    }
    true
}

/// Whether the line's clause is true of nothing in the room.
fn is_clause_false(line: &Line, room: &Room) -> bool
    requires fit { IfSome (lines.clause_of line.now) (All (IsLitOf room.now.ships)) }
    ensures { result ≡ is_clause_false room.now (lines.clause_of line.now) }
{
    match clause_of(line) {
        Some(clause) => are_false(clause.as_slice(), room),
        None => false,
    }
}

/// The number of the last clause line, among lines of the problem, whose clause is true of nothing in
/// the room; none where there is none. One that isn't marked as deleted goes before those that are. Of
/// 2^32 clause lines or more the number isn't exact.
#[tactic(auto, using(crate::proofs::Falsified::line_lits))]
pub fn closing_number(flat: &Flat, lines: &[Line], deleted: &[bool], room: &Room) -> Option<u32>
    requires fit { All (LineFits flat.now) lines.now }
    requires ships { room.now.ships ≡ flat.now.ships }
    ensures closes { is_some result ≡ closes_room room.now lines.now }
    ensures number { clause_count lines.now < 2 ^ 32 → LastClosing room.now lines.now deleted.now result }
{
    let _shape = flat.shape();
    let mut number = 0u32;
    let mut found = None;
    for line in lines {
        number = number.saturating_add(clause_lines(line));
        found = found_next(found, line, number, deleted, room);
    }
    found
}

/// What is found with one more line, which has this number if it is a clause line.
fn found_next(
    found: Option<u32>,
    line: &Line,
    number: u32,
    deleted: &[bool],
    room: &Room,
) -> Option<u32>
    requires fit { IfSome (lines.clause_of line.now) (All (IsLitOf room.now.ships)) }
    ensures closes { is_some result ≡ (is_some found || is_clause_false room.now (lines.clause_of line.now)) }
    ensures number { FindsLast room.now deleted.now found number line.now result }
{
    if is_clause_false(line, room) {
        Some(preferred(found, number, deleted))
    } else {
        found
    }
}

/// Whether some line, among lines of the problem, has a clause that is true of nothing in the room.
pub fn is_room_closed(flat: &Flat, lines: &[Line], room: &Room) -> bool
    requires fit { All (LineFits flat.now) lines.now }
    requires ships { room.now.ships ≡ flat.now.ships }
    ensures { result ≡ closes_room room.now lines.now }
{
    closing_number(flat, lines, &[], room).is_some()
}

/// The later of two numbers, unless that one alone is deleted.
fn preferred(earlier: Option<u32>, later: u32, deleted: &[bool]) -> u32
    ensures { result ≡ preferred deleted.now earlier later }
{
    match earlier {
        Some(number) => {
            if is_deleted(deleted, later) && !is_deleted(deleted, number) {
                number
            } else {
                later
            }
        }
        None => later,
    }
}

/// How many clauses the line has: one, or none.
pub(crate) fn clause_lines(line: &Line) -> u32
    ensures { result ≡ clause_count (line.now ∷ []) }
{
    match clause_of(line) {
        Some(_) => 1,
        None => 0,
    }
}

/// Where valid lines close a room, nothing permitted in it carries more than their best.
pub fn closed_room()
    ensures { ClosedRoom }
{}

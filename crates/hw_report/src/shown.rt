//! Reports of what a certificate shows.

ghost use Rattle.std.specs.Prelude.{◌≡◌};
ghost use Rattle.hw_desk.specs.Writers.{Puts};
ghost use Rattle.hw_report.specs.Lines.{best_text, checked_text, most_text, moved_text, certificate_own_cargo, shown_line};
ghost use Rattle.hw_report.specs.Seen.{names_seen};

use crate::lines::cargo_piece;
use crate::piece::{Piece, put_pieces};
use crate::report::Names;
use hw_cert::Verdict;
use hw_desk::Writer;

/// The problem's own cargo for a cargo that a certificate speaks of, both in tenths of a tonne.
fn own_cargo(ships: Option<u32>, cargo: u64) -> u64
    ensures { result ≡ certificate_own_cargo ships cargo }
{
    match ships {
        None => cargo,
        Some(ships) => cargo / (u64::from(ships) + 1),
    }
}

/// Puts how many ships a repair of this cargo moves.
fn put_moved<W: Writer>(out: &mut W, ships: Option<u32>, cargo: u64)
    ensures { Puts (moved_text ships cargo) (W.state out.old) (W.state out.new) }
{
    if let Some(ships) = ships {
        let ships = u64::from(ships);
        out.put(b" moved ");
        out.put_number(ships - cargo % (ships + 1));
    }
}

/// Puts the cargo of the best timetable so far, if there is one.
fn put_best<W: Writer>(out: &mut W, names: Names, ships: Option<u32>, best: Option<u64>)
    ensures { Puts (best_text (names_seen names.entry) ships best) (W.state out.old) (W.state out.new) }
{
    match best {
        None => out.put(b"none"),
        Some(cargo) => {
            put_pieces(out, &[cargo_piece(names, own_cargo(ships, cargo))]);
            put_moved(out, ships, cargo);
        }
    }
}

/// Puts a bound on every timetable's cargo, if there is one.
fn put_most<W: Writer>(out: &mut W, names: Names, ships: Option<u32>, bound: Option<u64>)
    ensures { Puts (most_text (names_seen names.entry) ships bound) (W.state out.old) (W.state out.new) }
{
    if let Some(bound) = bound {
        let bound = cargo_piece(names, own_cargo(ships, bound));
        put_pieces(out, &[Piece::Word(b" bound "), bound]);
    }
}

/// Puts a label, the best cargo and a bound on a line.
fn put_shown<W: Writer>(
    out: &mut W,
    label: &[u8],
    names: Names,
    ships: Option<u32>,
    best: Option<u64>,
    bound: Option<u64>,
)
    ensures { Puts (shown_line label.now (names_seen names.entry) ships best bound) (W.state out.old) (W.state out.new) }
{
    out.put(label);
    put_best(out, names, ships, best);
    put_most(out, names, ships, bound);
    out.put(b"\n");
}

/// Puts what valid lines show. Behind an unfinished verdict stands the bound, if there is one.
pub fn put_checked<W: Writer>(
    out: &mut W,
    names: Names,
    verdict: Verdict,
    bound: Option<u64>,
    ships: Option<u32>,
)
    ensures { Puts (checked_text (names_seen names.entry) verdict bound ships) (W.state out.old) (W.state out.new) }
{
    match verdict {
        Verdict::Optimal(cargo) => put_shown(out, b"optimal ", names, ships, Some(cargo), None),
        Verdict::Infeasible => out.put(b"infeasible\n"),
        Verdict::Unfinished(best) => put_shown(out, b"unfinished ", names, ships, best, bound),
    }
}

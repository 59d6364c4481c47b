//! What a certificate shows, as the title of a picture.

ghost use Rattle.std.specs.Prelude.{◌≡◌, ◌∷◌};
ghost use Rattle.std.specs.List.{concat};
ghost use Rattle.hw_desk.specs.Writers.{Puts};
ghost use Rattle.hw_chart_svg.specs.Pieces.{picture_piece_text, picture_pieces_text};
ghost use Rattle.hw_chart.specs.Outcomes.{amount_parts, badge, cargo_in_unit, disc_class, meaning_text, most_parts, sign_path, title_text, unit_text};

use hw_cert_lines::Verdict;
use hw_chart_svg::{Piece, put_shape};
use hw_desk::Writer;

/// How cargo is written: tenths of a tonne as tonnes, or as they are.
#[derive(Clone, Copy)]
pub enum CargoUnit {
    Tonnes,
    Plain,
}

/// What a certificate shows, as it stands over a picture: a verdict, and a bound in tenths of a tonne, if
/// it has one. The bound is spoken of only where the verdict is unfinished.
#[derive(Clone, Copy)]
pub struct Outcome {
    pub verdict: Verdict,
    pub bound: Option<u64>,
}

/// A cargo as a piece of text.
pub fn cargo_piece(unit: CargoUnit, cargo: u64) -> Piece<'static>
    ensures { picture_piece_text result ≡ cargo_in_unit unit cargo }
{
    match unit {
        CargoUnit::Tonnes => Piece::Tenths(cargo),
        CargoUnit::Plain => Piece::Number(cargo),
    }
}

/// The unit's sign after a cargo.
fn unit_piece(unit: CargoUnit) -> Piece<'static>
    ensures { picture_piece_text result ≡ unit_text unit }
{
    match unit {
        CargoUnit::Tonnes => Piece::Word(b" t"),
        CargoUnit::Plain => Piece::Word(b""),
    }
}

/// A bound after what was said, in three pieces that are empty where there is none.
fn at_most(unit: CargoUnit, bound: Option<u64>) -> [Piece<'static>; 3]
    ensures { picture_pieces_text result ≡ concat (most_parts unit bound) }
{
    let nothing = Piece::Word(b"");
    match bound {
        None => [nothing, nothing, nothing],
        Some(bound) => {
            let bound = cargo_piece(unit, bound);
            [Piece::Word(b", at most "), bound, unit_piece(unit)]
        }
    }
}

/// The title of a picture, in six pieces.
pub fn title(unit: CargoUnit, outcome: Outcome) -> [Piece<'static>; 6]
    ensures { picture_pieces_text result ≡ title_text unit outcome }
{
    let sign = unit_piece(unit);
    let nothing = Piece::Word(b"");
    match outcome.verdict {
        Verdict::Optimal(cargo) => {
            let cargo = cargo_piece(unit, cargo);
            let best = Piece::Word(b"Proved best: ");
            [best, cargo, sign, nothing, nothing, nothing]
        }
        Verdict::Infeasible => {
            let none = Piece::Word(b"Infeasible");
            [none, nothing, nothing, nothing, nothing, nothing]
        }
        Verdict::Unfinished(Some(cargo)) => {
            let cargo = cargo_piece(unit, cargo);
            let [words, bound, bound_sign] = at_most(unit, outcome.bound);
            let so_far = Piece::Word(b"Not proved best: ");
            [so_far, cargo, sign, words, bound, bound_sign]
        }
        Verdict::Unfinished(None) => {
            let [words, bound, bound_sign] = at_most(unit, outcome.bound);
            let none = Piece::Word(b"No plan");
            [none, nothing, nothing, words, bound, bound_sign]
        }
    }
}

/// What an unfinished certificate with this bound means, by the words before the bound.
fn bounded(unit: CargoUnit, words: &'static [u8], bound: u64) -> [Piece<'static>; 3]
    ensures { picture_pieces_text result ≡ concat (words.now ∷ amount_parts unit bound) }
{
    let bound = cargo_piece(unit, bound);
    [Piece::Word(words), bound, unit_piece(unit)]
}

/// A text as three pieces.
fn plain(words: &'static [u8]) -> [Piece<'static>; 3]
    ensures { picture_pieces_text result ≡ words.now }
{
    [Piece::Word(words), Piece::Word(b""), Piece::Word(b"")]
}

/// What the title means, in a sentence of three pieces.
pub fn meaning(unit: CargoUnit, outcome: Outcome) -> [Piece<'static>; 3]
    ensures { picture_pieces_text result ≡ meaning_text unit outcome }
{
    match (outcome.verdict, outcome.bound) {
        (Verdict::Optimal(_), _) => {
            plain(b"the certificate proves that no permitted timetable carries more")
        }
        (Verdict::Infeasible, _) => plain(b"the certificate proves that no timetable is permitted"),
        (Verdict::Unfinished(Some(_)), None) => {
            plain(b"this timetable is permitted; of others nothing is proved")
        }
        (Verdict::Unfinished(Some(_)), Some(bound)) => bounded(
            unit,
            b"this timetable is permitted; the certificate proves that none carries more than ",
            bound,
        ),
        (Verdict::Unfinished(None), None) => {
            plain(b"the certificate has no timetable and proves nothing")
        }
        (Verdict::Unfinished(None), Some(bound)) => bounded(
            unit,
            b"the certificate has no timetable; it proves that none carries more than ",
            bound,
        ),
    }
}

/// The class of the badge's disc.
fn disc(verdict: Verdict) -> &'static [u8]
    ensures { result.now ≡ disc_class verdict }
{
    match verdict {
        Verdict::Optimal(_) => b"tu",
        Verdict::Infeasible => b"in",
        Verdict::Unfinished(_) => b"be",
    }
}

/// The path of the badge's sign: a tick, a cross or a bar.
fn sign(verdict: Verdict) -> &'static [u8]
    ensures { result.now ≡ sign_path verdict }
{
    match verdict {
        Verdict::Optimal(_) => b"M21 28l5 5l8-9",
        Verdict::Infeasible => b"M22 23l10 10M32 23l-10 10",
        Verdict::Unfinished(_) => b"M21 28h12",
    }
}

/// Puts the badge of what a certificate shows: a sign in a disc.
pub fn put_badge<W: Writer>(out: &mut W, verdict: Verdict)
    ensures { Puts (badge verdict) (W.state out.old) (W.state out.new) }
{
    put_shape(
        out,
        disc(verdict),
        &[Piece::Word(b"M16 28a11 11 0 1 0 22 0a11 11 0 1 0-22 0z")],
    );
    put_shape(out, b"ck", &[Piece::Word(sign(verdict))]);
}

//! The head of a repair's picture.

ghost use Rattle.std.specs.Prelude.{◌≡◌, ◌≤◌, ◌++◌, option_map};
ghost use Rattle.hw_desk.specs.Writers.{Puts};
ghost use Rattle.hw_chart_svg.specs.Pieces.{picture_pieces_text};
ghost use Rattle.hw_repair.specs.Repaired.{own_cargo};
ghost use Rattle.hw_chart_repair.specs.Heads.{head_lines, repair_meaning_text, moved_count_text, own_outcome, own_verdict, repair_picture_head, repair_title};

use crate::sheet::put_marks_style;
use hw_cert_lines::Verdict;
use hw_chart::{CargoUnit, Outcome, put_badge, put_ground, put_style, title};
use hw_chart_svg::{Piece, put_line, put_picture_begin};
use hw_desk::Writer;
use hw_model::MOST_SHIPS;

/// The problem's own cargo, for which a cargo of the repair's problem stands.
fn own_cargo(ships: u32, cargo: u64) -> u64
    requires { ships ≤ MOST_SHIPS }
    ensures { result ≡ own_cargo ships cargo }
{
    cargo / (u64::from(ships) + 1)
}

/// The same of a cargo, if there is one.
fn own_cargo_of(ships: u32, cargo: Option<u64>) -> Option<u64>
    requires { ships ≤ MOST_SHIPS }
    ensures { result ≡ option_map (own_cargo ships) cargo }
{
    match cargo {
        None => None,
        Some(cargo) => Some(own_cargo(ships, cargo)),
    }
}

/// A verdict on the repair's problem, by the problem's own cargo.
fn own_verdict(ships: u32, verdict: Verdict) -> Verdict
    requires { ships ≤ MOST_SHIPS }
    ensures { result ≡ own_verdict ships verdict }
{
    match verdict {
        Verdict::Optimal(cargo) => Verdict::Optimal(own_cargo(ships, cargo)),
        Verdict::Infeasible => Verdict::Infeasible,
        Verdict::Unfinished(best) => Verdict::Unfinished(own_cargo_of(ships, best)),
    }
}

/// What a certificate of a repair of this many ships shows, by the problem's own cargo.
pub fn own_outcome(ships: u32, outcome: Outcome) -> Outcome
    requires { ships ≤ MOST_SHIPS }
    ensures { result ≡ own_outcome ships outcome }
{
    Outcome {
        verdict: own_verdict(ships, outcome.verdict),
        bound: own_cargo_of(ships, outcome.bound),
    }
}

/// How many ships are moved, in two pieces that are empty where there is no timetable.
fn moved_pieces(count: Option<u32>) -> [Piece<'static>; 2]
    ensures { picture_pieces_text result ≡ moved_count_text count }
{
    match count {
        None => [Piece::Word(b""), Piece::Word(b"")],
        Some(count) => [Piece::Word(b", moved "), Piece::Number(u64::from(count))],
    }
}

/// The title of a repair's picture, in eight pieces.
fn repair_title(unit: CargoUnit, outcome: Outcome, count: Option<u32>) -> [Piece<'static>; 8]
    ensures { picture_pieces_text result ≡ repair_title unit outcome count }
{
    let [says, cargo, sign, words, bound, bound_sign] = title(unit, outcome);
    let [moved, number] = moved_pieces(count);
    [says, cargo, sign, words, bound, bound_sign, moved, number]
}

/// What the title means.
fn meaning(outcome: Outcome) -> &'static [u8]
    ensures { result.now ≡ repair_meaning_text outcome }
{
    match (outcome.verdict, outcome.bound) {
        (Verdict::Optimal(_), _) => {
            b"the certificate proves that no timetable that meets the plan carries more, or as much with fewer ships moved"
        }
        (Verdict::Infeasible, _) => b"the certificate proves that no timetable meets the plan",
        (Verdict::Unfinished(Some(_)), None) => {
            b"this timetable meets the plan; of others nothing is proved"
        }
        (Verdict::Unfinished(Some(_)), Some(_)) => {
            b"this timetable meets the plan; the certificate proves that none that does carries more than the bound"
        }
        (Verdict::Unfinished(None), None) => {
            b"the certificate has no timetable and proves nothing"
        }
        (Verdict::Unfinished(None), Some(_)) => {
            b"the certificate has no timetable; it proves that none that meets the plan carries more than the bound"
        }
    }
}

/// Puts the title, what it means, and the sizes of the problem.
fn put_head_lines<W: Writer>(out: &mut W, title: &[Piece], outcome: Outcome, sizes: &[Piece])
    ensures { Puts (head_lines (picture_pieces_text title.now) outcome (picture_pieces_text sizes.now)) (W.state out.old) (W.state out.new) }
{
    put_line(out, b"h", 48, 36, title);
    put_line(out, b"m", 48, 56, &[Piece::Word(meaning(outcome))]);
    put_line(out, b"m r", 1268, 36, sizes);
}

/// Puts the head of a picture of this height: its beginning, title, ground and sheets, and the sizes of the problem. The
/// outcome is that by the problem's own cargo.
#[tactic(auto, unfolding(crate::specs::Heads::repair_picture_head))]
pub fn put_repair_head<W: Writer>(
    out: &mut W,
    unit: CargoUnit,
    outcome: Outcome,
    count: Option<u32>,
    height: u64,
    sizes: &[Piece],
)
    ensures { Puts (repair_picture_head unit outcome count height (picture_pieces_text sizes.now)) (W.state out.old) (W.state out.new) }
{
    let title = repair_title(unit, outcome, count);
    put_picture_begin(out, 1280, height, &title);
    put_style(out);
    put_marks_style(out);
    put_ground(out, height);
    put_badge(out, outcome.verdict);
    put_head_lines(out, &title, outcome, sizes);
}

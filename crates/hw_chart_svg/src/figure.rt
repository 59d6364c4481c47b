//! Figures over slots.

ghost use Rattle.std.specs.Prelude.{◌≡◌, ◌-◌, ◌<◌, ◌≤◌};
ghost use Rattle.hw_desk.specs.Writers.{Puts};
ghost use Rattle.hw_chart_svg.specs.Figures.{moves, steps};

use crate::piece::{Piece, put_pieces};
use crate::shape::put_shape_begin;
use hw_desk::Writer;

/// What a figure shows: a level for each slot.
pub trait Levels {
    ghost use Rattle.std.specs.Prelude.{◌≡◌, ◌≤◌, ◌<◌, ℕ};

    /// The level of a slot.
    ghost level: { Self → ℕ → ℕ };

    /// Before this slot all levels are there.
    ghost end: { Self → ℕ };

    /// The level of a slot, in the units of its window, downward.
    fn level(&self, slot: u32) -> u64
        requires { slot < end self.now }
        ensures { result ≡ level self.now slot };
}

/// Puts the steps of a figure, slot by slot.
fn put_moves<W: Writer, L: Levels>(out: &mut W, levels: &L, first: u32, end: u32)
    requires { end ≤ L.end levels.now }
    ensures { Puts (moves (L.level levels.now) first (end - first)) (W.state out.old) (W.state out.new) }
{
    for slot in first..end {
        put_pieces(
            out,
            &[
                Piece::Word(b"V"),
                Piece::Number(levels.level(slot)),
                Piece::Word(b"H"),
                Piece::Number(u64::from(slot) + 1),
            ],
        );
    }
}

/// Puts a filled figure of a class over the slots from the first one to before the end.
pub fn put_steps<W: Writer, L: Levels>(
    out: &mut W,
    class: &[u8],
    levels: &L,
    first: u32,
    end: u32,
    base: u64,
)
    requires { end ≤ L.end levels.now }
    ensures { Puts (steps class.now (L.level levels.now) first (end - first) base) (W.state out.old) (W.state out.new) }
{
    put_shape_begin(out, class);
    put_pieces(
        out,
        &[
            Piece::Word(b"M"),
            Piece::Number(u64::from(first)),
            Piece::Word(b" "),
            Piece::Number(base),
        ],
    );
    put_moves(out, levels, first, end);
    put_pieces(
        out,
        &[Piece::Word(b"V"), Piece::Number(base), Piece::Word(b"z")],
    );
    out.put(b"\"/>\n");
}

//! The lines of the report.

ghost use Rattle.std.specs.Prelude.{◌≡◌, ◌*◌};
ghost use Rattle.hw_desk.specs.Writers.{Puts};
ghost use Rattle.hw_port_windows.specs.Lines.{closed_line, full_word, sails_line, shallow_line, window_ship_line, tides_line};

use crate::piece::{Piece, put_pieces};
use crate::run::Run;
use hw_desk::Writer;
use hw_model::{ShipId, Slot};

/// Puts the line of a ship.
#[tactic(auto, unfolding(crate::specs::Lines::window_ship_line))]
pub fn put_ship_line<W: Writer>(out: &mut W, number: ShipId, name: &[u8])
    ensures { Puts (window_ship_line number name.now) (W.state out.old) (W.state out.new) }
{
    put_pieces(
        out,
        &[
            Piece::Word(b"ship "),
            Piece::Number(u64::from(number)),
            Piece::Word(b" "),
            Piece::Word(name),
            Piece::Word(b"\n"),
        ],
    );
}

/// The minute in which a slot begins.
fn minute(slot: Slot, minutes: u32) -> u64
    ensures { result ≡ slot * minutes }
{
    u64::from(slot) * u64::from(minutes)
}

/// The last word of a run in which a ship may sail, and the end of the line.
fn full_word(full: bool) -> &'static [u8]
    ensures { result.now ≡ full_word full }
{
    if full { b"full\n" } else { b"short\n" }
}

/// Puts the line of a run in which a ship may sail.
#[tactic(auto, unfolding(crate::specs::Lines::sails_line))]
pub fn put_sails_line<W: Writer>(
    out: &mut W,
    run: Run,
    minutes: u32,
    least: i64,
    greatest: i64,
    full: bool,
)
    ensures { Puts (sails_line run minutes least greatest full) (W.state out.old) (W.state out.new) }
{
    put_pieces(
        out,
        &[
            Piece::Word(b"from "),
            Piece::Number(u64::from(run.first)),
            Piece::Word(b" "),
            Piece::Number(minute(run.first, minutes)),
            Piece::Word(b" to "),
            Piece::Number(u64::from(run.last)),
            Piece::Word(b" "),
            Piece::Number(minute(run.last, minutes)),
            Piece::Word(b" draft "),
            Piece::Draft(least),
            Piece::Word(b" "),
            Piece::Draft(greatest),
            Piece::Word(b" "),
            Piece::Word(full_word(full)),
        ],
    );
}

/// Puts the line of a run in which something is closed.
#[tactic(auto, unfolding(crate::specs::Lines::closed_line))]
pub fn put_closed_line<W: Writer>(out: &mut W, run: Run)
    ensures { Puts (closed_line run) (W.state out.old) (W.state out.new) }
{
    put_pieces(
        out,
        &[
            Piece::Word(b"closed "),
            Piece::Number(u64::from(run.first)),
            Piece::Word(b" "),
            Piece::Number(u64::from(run.last)),
            Piece::Word(b"\n"),
        ],
    );
}

/// Puts the line of a run in which the water is too shallow.
#[tactic(auto, unfolding(crate::specs::Lines::shallow_line))]
pub fn put_shallow_line<W: Writer>(out: &mut W, run: Run, light: i64, at_most: i64, name: &[u8])
    ensures { Puts (shallow_line run light at_most name.now) (W.state out.old) (W.state out.new) }
{
    put_pieces(
        out,
        &[
            Piece::Word(b"shallow "),
            Piece::Number(u64::from(run.first)),
            Piece::Word(b" "),
            Piece::Number(u64::from(run.last)),
            Piece::Word(b" needs "),
            Piece::Draft(light),
            Piece::Word(b" at most "),
            Piece::Draft(at_most),
            Piece::Word(b" "),
            Piece::Word(name),
            Piece::Word(b"\n"),
        ],
    );
}

/// Puts the line of a run in which a pass lies after the end of the tide table.
#[tactic(auto, unfolding(crate::specs::Lines::tides_line))]
pub fn put_tides_line<W: Writer>(out: &mut W, run: Run, needed: Slot, name: &[u8])
    ensures { Puts (tides_line run needed name.now) (W.state out.old) (W.state out.new) }
{
    put_pieces(
        out,
        &[
            Piece::Word(b"tides end "),
            Piece::Number(u64::from(run.first)),
            Piece::Word(b" "),
            Piece::Number(u64::from(run.last)),
            Piece::Word(b" needs slot "),
            Piece::Number(u64::from(needed)),
            Piece::Word(b" "),
            Piece::Word(name),
            Piece::Word(b"\n"),
        ],
    );
}

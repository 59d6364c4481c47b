//! The lines of the text.

ghost use Rattle.std.specs.Prelude.{◌≡◌, ◌<◌, length, pos};
ghost use Rattle.hw_desk.specs.Writers.{Puts};
ghost use Rattle.hw_port.specs.Kept.{Within};
ghost use Rattle.hw_port_model.specs.Numbers.{whole};
ghost use Rattle.hw_report.specs.Lines.{name_in};
ghost use Rattle.hw_report.specs.Pieces.{piece_text};
ghost use Rattle.hw_report.specs.Printing.{AreNamesOf};
ghost use Rattle.hw_report.specs.Seen.{names_seen};
ghost use Rattle.hw_repair_text.specs.Lines.{apart, change_line, change_word, minute_text, ship_moved_line, name_change, name_moved, name_stands, number_change, number_moved, number_stands, slot_text, stands_line, total_line};

use crate::fate::stays;
use hw_desk::Writer;
use hw_flat::Flat;
use hw_model::{ShipId, Slot};
use hw_port::Port;
use hw_report::{Names, Piece, cargo_piece, minute, put_pieces, ship_name};

/// A slot, or that the ship stays.
fn slot_piece(flat: &Flat, slot: Slot) -> Piece<'static>
    ensures { piece_text result ≡ slot_text flat.now slot }
{
    if stays(flat, slot) {
        Piece::Word(b"stay")
    } else {
        Piece::Number(u64::from(slot))
    }
}

/// The minute in which a slot begins, or that the ship stays.
fn minute_piece(flat: &Flat, slot_minutes: i64, slot: Slot) -> Piece<'static>
    requires minutes { Within (pos 1) (pos 1_440) slot_minutes }
    ensures { piece_text result ≡ minute_text flat.now (whole slot_minutes) slot }
{
    if flat.horizon() <= slot {
        Piece::Word(b"stay")
    } else {
        Piece::Number(minute(slot, slot_minutes))
    }
}

/// How far two numbers are apart.
fn apart(old: u64, new: u64) -> u64
    ensures { result ≡ apart old new }
{
    if old <= new { new - old } else { old - new }
}

/// Whether one cargo for another is won or lost.
fn change_word(old: u64, new: u64) -> &'static [u8]
    ensures { result.now ≡ change_word old new }
{
    if old <= new { b"won " } else { b"lost " }
}

/// Puts the line of a ship that is moved, by number.
#[tactic(auto, unfolding(crate::specs::Lines::number_moved))]
fn put_number_moved<W: Writer>(out: &mut W, flat: &Flat, ship: ShipId, old: Slot, new: Slot)
    ensures { Puts (number_moved flat.now ship old new) (W.state out.old) (W.state out.new) }
{
    put_pieces(
        out,
        &[
            Piece::Word(b"moved "),
            Piece::Number(u64::from(ship)),
            Piece::Word(b" "),
            slot_piece(flat, old),
            Piece::Word(b" "),
            slot_piece(flat, new),
            Piece::Word(b"\n"),
        ],
    );
}

/// Puts the line of a ship that is moved, by name.
#[tactic(auto, unfolding(crate::specs::Lines::name_moved))]
fn put_name_moved<W: Writer>(
    out: &mut W,
    flat: &Flat,
    port: &Port,
    ship: ShipId,
    old: Slot,
    new: Slot,
)
    requires ship_in { ship < length port.now.ships }
    ensures { Puts (name_moved flat.now (whole port.now.slot_minutes) (name_in port.now.ships ship) ship old new) (W.state out.old) (W.state out.new) }
{
    let parts = port.parts();
    put_pieces(
        out,
        &[
            Piece::Word(b"moved "),
            Piece::Number(u64::from(ship)),
            Piece::Word(b" "),
            slot_piece(flat, old),
            Piece::Word(b" "),
            slot_piece(flat, new),
            Piece::Word(b" "),
            minute_piece(flat, parts.slot_minutes, old),
            Piece::Word(b" "),
            minute_piece(flat, parts.slot_minutes, new),
            Piece::Word(b" "),
            Piece::Word(ship_name(&parts.ships, ship)),
            Piece::Word(b"\n"),
        ],
    );
}

/// Puts the line of a ship that is moved from one slot to another.
pub fn put_moved<W: Writer>(
    out: &mut W,
    flat: &Flat,
    names: Names,
    ship: ShipId,
    old: Slot,
    new: Slot,
)
    requires ship_in { ship < flat.now.ships }
    requires names { AreNamesOf flat.now (names_seen names) }
    ensures { Puts (ship_moved_line flat.now (names_seen names.entry) ship old new) (W.state out.old) (W.state out.new) }
{
    match names {
        Names::Flat => put_number_moved(out, flat, ship, old, new),
        Names::Port { port, .. } => put_name_moved(out, flat, port, ship, old, new),
    }
}

/// Puts the line of a ship that isn't moved, by number.
#[tactic(auto, unfolding(crate::specs::Lines::number_stands))]
fn put_number_stands<W: Writer>(out: &mut W, flat: &Flat, word: &[u8], ship: ShipId, slot: Slot)
    ensures { Puts (number_stands flat.now word.now ship slot) (W.state out.old) (W.state out.new) }
{
    put_pieces(
        out,
        &[
            Piece::Word(word),
            Piece::Number(u64::from(ship)),
            Piece::Word(b" "),
            slot_piece(flat, slot),
            Piece::Word(b"\n"),
        ],
    );
}

/// Puts the line of a ship that isn't moved, by name.
#[tactic(auto, unfolding(crate::specs::Lines::name_stands))]
fn put_name_stands<'x, W: Writer>(
    out: &mut W,
    flat: &Flat,
    port: &'x Port,
    word: &'x [u8],
    ship: ShipId,
    slot: Slot,
)
    requires ship_in { ship < length port.now.ships }
    ensures { Puts (name_stands flat.now (whole port.now.slot_minutes) (name_in port.now.ships ship) word.now ship slot) (W.state out.old) (W.state out.new) }
{
    let parts = port.parts();
    put_pieces(
        out,
        &[
            Piece::Word(word),
            Piece::Number(u64::from(ship)),
            Piece::Word(b" "),
            slot_piece(flat, slot),
            Piece::Word(b" "),
            minute_piece(flat, parts.slot_minutes, slot),
            Piece::Word(b" "),
            Piece::Word(ship_name(&parts.ships, ship)),
            Piece::Word(b"\n"),
        ],
    );
}

/// Puts the line of a ship that isn't moved: a word, and its slot.
pub fn put_stands<W: Writer>(
    out: &mut W,
    flat: &Flat,
    names: Names,
    word: &[u8],
    ship: ShipId,
    slot: Slot,
)
    requires ship_in { ship < flat.now.ships }
    requires names { AreNamesOf flat.now (names_seen names) }
    ensures { Puts (stands_line flat.now (names_seen names.entry) word.now ship slot) (W.state out.old) (W.state out.new) }
{
    match names {
        Names::Flat => put_number_stands(out, flat, word, ship, slot),
        Names::Port { port, .. } => put_name_stands(out, flat, port, word, ship, slot),
    }
}

/// Puts what a ship wins or loses, by number.
#[tactic(auto, unfolding(crate::specs::Lines::number_change))]
fn put_number_change<W: Writer>(out: &mut W, ship: ShipId, old: u64, new: u64)
    ensures { Puts (number_change ship old new) (W.state out.old) (W.state out.new) }
{
    put_pieces(
        out,
        &[
            Piece::Word(change_word(old, new)),
            Piece::Number(u64::from(ship)),
            Piece::Word(b" "),
            Piece::Number(apart(old, new)),
            Piece::Word(b"\n"),
        ],
    );
}

/// Puts what a ship wins or loses, by name.
#[tactic(auto, unfolding(crate::specs::Lines::name_change))]
fn put_name_change<W: Writer>(out: &mut W, name: &[u8], ship: ShipId, old: u64, new: u64)
    ensures { Puts (name_change name.now ship old new) (W.state out.old) (W.state out.new) }
{
    put_pieces(
        out,
        &[
            Piece::Word(change_word(old, new)),
            Piece::Number(u64::from(ship)),
            Piece::Word(b" "),
            Piece::Tonnes(apart(old, new)),
            Piece::Word(b" "),
            Piece::Word(name),
            Piece::Word(b"\n"),
        ],
    );
}

/// Puts what a ship wins or loses, if its cargo differs.
pub fn put_change<W: Writer>(
    out: &mut W,
    flat: &Flat,
    names: Names,
    ship: ShipId,
    old: u64,
    new: u64,
)
    requires ship_in { ship < flat.now.ships }
    requires names { AreNamesOf flat.now (names_seen names) }
    ensures { Puts (change_line (names_seen names.entry) ship old new) (W.state out.old) (W.state out.new) }
{
    if old == new {
        return;
    }
    match names {
        Names::Flat => put_number_change(out, ship, old, new),
        Names::Port { port, .. } => {
            let parts = port.parts();
            put_name_change(out, ship_name(&parts.ships, ship), ship, old, new);
        }
    }
}

/// Puts the sums of the plan and of the repair, and by how much they differ.
#[tactic(auto, unfolding(crate::specs::Lines::total_line))]
pub fn put_total<W: Writer>(out: &mut W, names: Names, old: u64, new: u64)
    ensures { Puts (total_line (names_seen names.entry) old new) (W.state out.old) (W.state out.new) }
{
    put_pieces(
        out,
        &[
            Piece::Word(b"total "),
            cargo_piece(names, old),
            Piece::Word(b" "),
            cargo_piece(names, new),
            Piece::Word(b" "),
            Piece::Word(change_word(old, new)),
            cargo_piece(names, apart(old, new)),
            Piece::Word(b"\n"),
        ],
    );
}

//! What is said of a ship and a slot.

ghost use Rattle.std.specs.Prelude.{◌≡◌};
ghost use Rattle.hw_chart_svg.specs.Pieces.{picture_pieces_text};
ghost use Rattle.hw_chart_repair.specs.Times.{slot_title, planned_stay_title, slot_time_text};

use crate::mark::Spot;
use hw_chart::Scale;
use hw_chart_svg::Piece;
use hw_model::{ShipId, Slot};

/// The time at which a slot begins, in two pieces that are empty where slots have no minutes.
fn time_pieces(scale: Scale, midnight: u32, slot: Slot) -> [Piece<'static>; 2]
    ensures { picture_pieces_text result ≡ slot_time_text scale midnight slot }
{
    match scale {
        Scale::Minutes(minutes) => {
            let time = u64::from(slot) * u64::from(minutes) + u64::from(midnight);
            [Piece::Word(b", "), Piece::Clock(time)]
        }
        Scale::Slots => [Piece::Word(b""), Piece::Word(b"")],
    }
}

/// A ship, some words, and a slot with its time.
pub fn slot_title(spot: Spot, words: &'static [u8], slot: Slot) -> [Piece<'static>; 6]
    ensures { picture_pieces_text result ≡ slot_title (slot_time_text spot.scale spot.midnight slot) spot.ship words.now slot }
{
    let [comma, time] = time_pieces(spot.scale, spot.midnight, slot);
    let ship = Piece::Number(u64::from(spot.ship));
    let slot = Piece::Number(u64::from(slot));
    let word = Piece::Word(b"ship ");
    [word, ship, Piece::Word(words), slot, comma, time]
}

/// A ship that was planned to stay.
pub fn stay_title(ship: ShipId) -> [Piece<'static>; 3]
    ensures { picture_pieces_text result ≡ planned_stay_title ship }
{
    let ship = Piece::Number(u64::from(ship));
    [
        Piece::Word(b"ship "),
        ship,
        Piece::Word(b" was planned to stay"),
    ]
}

//! Why a ship has no slot in which it may sail.

ghost use Rattle.std.specs.Prelude.{◌≡◌, ◌<◌, length};
ghost use Rattle.hw_desk.specs.Writers.{Puts};
ghost use Rattle.hw_port.specs.Kept.{ShipKept};
ghost use Rattle.hw_port_model.specs.Numbers.{horizon_of};
ghost use Rattle.hw_port_model.specs.Drafts.{allowed};
ghost use Rattle.hw_port_windows.specs.Statuses.{reason_in};
ghost use Rattle.hw_chart_port.specs.Reasons.{clash_hint_where, each_may_sail, has_no_slot, hint_by, is_reason, keeps_in as kept_in_by, no_slot_where, reasons_words as words_of};

use crate::chart::Chart;
use crate::closings::is_closed;
use hw_cert_lines::Verdict;
use hw_chart_svg::{Piece, put_line};
use hw_desk::Writer;
use hw_draft::natural;
use hw_model::{ShipId, Slot};
use hw_port::Ship;

/// What may keep a ship from sailing in a slot.
#[derive(Clone, Copy)]
pub enum Reason {
    /// The slot is closed for it.
    Shut,
    /// A pass has no height in the tide table.
    TableEnds,
    /// The water allows less than its light draft.
    TooShallow,
}

/// Whether there is no slot in which a ship may sail.
pub fn has_no_slot(chart: &Chart, number: ShipId) -> bool
    requires { number < length chart.now.port.ships }
    ensures { result ≡ has_no_slot chart.now number }
{
    (0..chart.horizon()).all(|slot| chart.sailing(number, slot).is_none())
}

/// Whether this is the reason against a slot.
#[tactic(auto, using(crate::proofs::Reasoned::shut, crate::proofs::Reasoned::ends, crate::proofs::Reasoned::shallow))]
fn is_kept_by(chart: &Chart, number: ShipId, slot: Slot, reason: Reason) -> bool
    requires ship_in { number < length chart.now.port.ships }
    requires slot_in { slot < horizon_of chart.now.port }
    ensures { result ≡ is_reason reason (reason_in chart.now.port chart.now.tide number slot) }
{
    let closed = is_closed(chart, number, slot);
    match reason {
        Reason::Shut => closed,
        Reason::TableEnds => !closed && chart.allowed(number, slot).is_none(),
        Reason::TooShallow => !closed && chart.allowed(number, slot).is_some(),
    }
}

/// Whether it is the reason against a slot of the ship's window.
pub fn is_reason_for(chart: &Chart, number: ShipId, ship: &Ship, reason: Reason) -> bool
    requires ship_in { number < length chart.now.port.ships }
    requires ship { ShipKept chart.now.port ship.now }
    ensures { result ≡ kept_in_by chart.now number ship.now reason }
{
    let _few = chart.horizon();
    let first = natural(ship.earliest);
    let end = natural(ship.latest) + 1;
    (first..end).any(|slot| is_kept_by(chart, number, slot, reason))
}

/// The reasons that there are, in words.
fn reasons_words(shut: bool, ends: bool, shallow: bool) -> &'static [u8]
    ensures { result.now ≡ words_of shut ends shallow }
{
    match (shut, ends, shallow) {
        (true, true, true) => b"no slot: closed, tides end, too little water",
        (true, true, false) => b"no slot: closed, tides end",
        (true, false, true) => b"no slot: closed, too little water",
        (true, false, false) => b"no slot: closed",
        (false, true, true) => b"no slot: tides end, too little water",
        (false, true, false) => b"no slot: tides end",
        (false, false, true) => b"no slot: too little water",
        (false, false, false) => b"no slot",
    }
}

/// Puts that there is no slot in which a ship may sail, and why, where it is so.
pub fn put_no_slot_where<W: Writer>(out: &mut W, chart: &Chart, number: ShipId, ship: &Ship, y: u32)
    requires ship_in { number < length chart.now.port.ships }
    requires ship { ShipKept chart.now.port ship.now }
    ensures { Puts (no_slot_where chart.now number ship.now y) (W.state out.old) (W.state out.new) }
{
    if has_no_slot(chart, number) {
        let words = reasons_words(
            is_reason_for(chart, number, ship, Reason::Shut),
            is_reason_for(chart, number, ship, Reason::TableEnds),
            is_reason_for(chart, number, ship, Reason::TooShallow),
        );
        put_line(out, b"q", 900, u64::from(y) + 17, &[Piece::Word(words)]);
    } else {
        out.put(b"");
    }
}

/// Whether each ship has a slot in which it may sail.
fn may_each_sail(chart: &Chart) -> bool
    ensures { result ≡ each_may_sail chart.now }
{
    let ships = chart.ships().len() as u32;
    (0..ships).all(|number| !has_no_slot(chart, number))
}

/// Puts how to find what leaves no timetable together, where each ship has a slot.
#[tactic(auto, unfolding(crate::specs::Reasons::clash_hint))]
fn put_clash_hint_where<W: Writer>(out: &mut W, chart: &Chart)
    ensures { Puts (clash_hint_where chart.now) (W.state out.old) (W.state out.new) }
{
    if may_each_sail(chart) {
        put_line(
            out,
            b"m r",
            1268,
            56,
            &[Piece::Word(
                b"each ship alone could sail; clash finds which restrictions together leave nothing",
            )],
        );
    } else {
        out.put(b"");
    }
}

/// Puts the same, where the verdict is that no timetable is permitted.
pub fn put_hint<W: Writer>(out: &mut W, chart: &Chart, verdict: Verdict)
    ensures { Puts (hint_by chart.now verdict) (W.state out.old) (W.state out.new) }
{
    match verdict {
        Verdict::Infeasible => put_clash_hint_where(out, chart),
        Verdict::Optimal(_) | Verdict::Unfinished(_) => out.put(b""),
    }
}

//! The two formats, and how they spell variables and the ends of rows.

ghost use Rattle.std.specs.Prelude.{◌≡◌, ◌+◌, ◌*◌, ◌<◌};
ghost use Rattle.hw_desk.specs.Writers.{Puts};
ghost use Rattle.hw_flat_programme.specs.Texts.{after_bound, before_bound, mark_of, name_text, numbered_variable, row_end};

use hw_desk::Writer;
use hw_flat::Flat;
use hw_model::{ShipId, Slot};

/// A format of the text.
#[derive(Clone, Copy)]
pub enum Format {
    /// The LP format, as cbc, glpk, HiGHS, SCIP, Gurobi and CPLEX read it.
    Lp,
    /// The pseudo-Boolean format, as clasp reads it.
    Opb,
}

/// What a row demands of its sum.
#[derive(Clone, Copy)]
pub enum Sense {
    /// At most the bound.
    AtMost,
    /// Exactly the bound.
    Exactly,
}

/// How a term is spelled.
#[derive(Clone, Copy)]
pub enum Mark {
    /// With the name of its variable.
    Named,
    /// With the number of its variable.
    Plus,
    /// Negated, with the number of its variable.
    Minus,
}

/// How the terms of a row stand in a format.
pub(crate) fn mark_of(format: Format, sense: Sense) -> Mark
    ensures { result ≡ mark_of format sense }
{
    match format {
        Format::Lp => Mark::Named,
        Format::Opb => {
            match sense {
                Sense::AtMost => Mark::Minus,
                Sense::Exactly => Mark::Plus,
            }
        }
    }
}

/// Puts the name of a variable.
#[tactic(auto, unfolding(crate::specs::Texts::name_text))]
pub(crate) fn put_name<W: Writer>(out: &mut W, ship: ShipId, slot: Slot)
    ensures { Puts (name_text ship slot) (W.state out.old) (W.state out.new) }
{
    out.put(b" x_");
    out.put_number(u64::from(ship));
    out.put(b"_");
    out.put_number(u64::from(slot));
    out.put(b"\n");
}

/// The number of a variable.
fn number(flat: &Flat, ship: ShipId, slot: Slot) -> u64
    requires ship_in { ship < flat.now.ships }
    requires slot_in { slot < flat.now.slots }
    ensures { result ≡ ship * flat.now.slots + slot + 1 }
{
    u64::from(ship * flat.shape().slots + slot + 1)
}

/// Puts the number of a variable.
#[tactic(auto, unfolding(crate::specs::Texts::numbered_variable))]
pub(crate) fn put_number<W: Writer>(out: &mut W, flat: &Flat, ship: ShipId, slot: Slot)
    requires ship_in { ship < flat.now.ships }
    requires slot_in { slot < flat.now.slots }
    ensures { Puts (numbered_variable flat.now.slots ship slot) (W.state out.old) (W.state out.new) }
{
    out.put(b" x");
    out.put_number(number(flat, ship, slot));
    out.put(b" ");
}

/// What stands before the bound of a row.
fn before_bound(format: Format, sense: Sense) -> &'static [u8]
    ensures { result.now ≡ before_bound format sense }
{
    match format {
        Format::Lp => {
            match sense {
                Sense::AtMost => b" <= ",
                Sense::Exactly => b" = ",
            }
        }
        Format::Opb => {
            match sense {
                Sense::AtMost => b">= -",
                Sense::Exactly => b"= ",
            }
        }
    }
}

/// What stands after it.
fn after_bound(format: Format) -> &'static [u8]
    ensures { result.now ≡ after_bound format }
{
    match format {
        Format::Lp => b"\n",
        Format::Opb => b" ;\n",
    }
}

/// Puts the end of a row.
#[tactic(auto, unfolding(crate::specs::Texts::row_end))]
pub(crate) fn put_row_end<W: Writer>(out: &mut W, format: Format, sense: Sense, bound: u32)
    ensures { Puts (row_end format sense bound) (W.state out.old) (W.state out.new) }
{
    out.put(before_bound(format, sense));
    out.put_number(u64::from(bound));
    out.put(after_bound(format));
}

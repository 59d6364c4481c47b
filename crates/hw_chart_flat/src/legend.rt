//! What the legend of a picture says.

ghost use Rattle.std.specs.Prelude.{◌≡◌, ◌≤◌, ◌+◌, ◌*◌, All, IfSome, length, option_map};
ghost use Rattle.hw_desk.specs.Writers.{Puts};
ghost use Rattle.hw_chart.specs.Legends.{HasShortWords, entry_parts, legend_parts, patch_entry};
ghost use Rattle.hw_chart_flat.specs.Legends.{flat_entry, flat_legend, flat_legend_from};
ghost use Rattle.hw_chart_flat.specs.Moves.{IsPlan};

use crate::marks::{FlatMark, is_marked};
use crate::plan::Plan;
use hw_chart::{
    Entry, LegendPlace, Sample, legend_begin, next_place, put_entries, put_entry_where,
};
use hw_desk::Writer;
use hw_flat::Flat;

/// An entry of a legend with a patch of a class. Its words are 60 bytes at most.
pub fn patch_entry(class: &'static [u8], says: &'static [u8], stands: bool) -> Entry
    requires few { length says.now ≤ 60 }
    ensures value { entry_parts result ≡ patch_entry class.now says.now stands }
    ensures words { HasShortWords result }
{
    Entry {
        sample: Sample::Patch,
        class,
        says,
        stands,
    }
}

/// The entry of a mark, which stands where the picture has that mark.
fn entry_of(flat: &Flat, plan: Option<&Plan>, mark: FlatMark) -> Entry
    requires { IfSome plan (λ p. IsPlan flat.now p.now) }
    ensures value { entry_parts result ≡ flat_entry flat.now (option_map (λ p. p.now.table) plan.entry) mark }
    ensures words { HasShortWords result }
{
    let stands = is_marked(flat, plan, mark);
    match mark {
        FlatMark::HasValue => patch_entry(b"dr", b"may sail: the higher, the more cargo", stands),
        FlatMark::HasMost => patch_entry(b"fl", b"with its most cargo", stands),
        FlatMark::CouldMove => patch_entry(b"pl", b"could move there alone", stands),
        FlatMark::Sails => patch_entry(b"ou", b"sails", stands),
        FlatMark::HoldsTugs => patch_entry(b"tu", b"holds tugs", stands),
        FlatMark::MustWait => patch_entry(b"be", b"must wait for another", stands),
        FlatMark::WholeFleet => patch_entry(b"fu", b"whole fleet held", stands),
    }
}

/// Puts the entries of the marks that the picture has, and then others, from here on.
fn put_marks<W: Writer>(
    out: &mut W,
    flat: &Flat,
    plan: Option<&Plan>,
    at: LegendPlace,
    marks: &[FlatMark],
    more: &[Entry],
)
    requires plan { IfSome plan (λ p. IsPlan flat.now p.now) }
    requires x { at.x ≤ 10_000 }
    requires y { at.y + 16 * length marks.now + 16 * length more.now ≤ 9_000 }
    requires words { All HasShortWords more.now }
    ensures { Puts (flat_legend_from at flat.now (option_map (λ p. p.now.table) plan.entry) marks.now (legend_parts more.now)) (W.state out.old) (W.state out.new) }
{
    match marks {
        [] => put_entries(out, at, more),
        [mark, rest @ ..] => {
            let entry = entry_of(flat, plan, *mark);
            put_entry_where(out, at, entry);
            put_marks(out, flat, plan, next_place(at, entry), rest, more);
        }
    }
}

/// Puts the legend: the marks that the picture has, in a fixed order, and after them others, at most 30.
#[tactic(auto, unfolding(crate::specs::Legends::flat_legend))]
pub(crate) fn put_legend<W: Writer>(out: &mut W, flat: &Flat, plan: Option<&Plan>, more: &[Entry])
    requires plan { IfSome plan (λ p. IsPlan flat.now p.now) }
    requires few { length more.now ≤ 30 }
    requires words { All HasShortWords more.now }
    ensures { Puts (flat_legend flat.now (option_map (λ p. p.now.table) plan.entry) (legend_parts more.now)) (W.state out.old) (W.state out.new) }
{
    put_marks(
        out,
        flat,
        plan,
        legend_begin(),
        &[
            FlatMark::HasValue,
            FlatMark::HasMost,
            FlatMark::CouldMove,
            FlatMark::Sails,
            FlatMark::HoldsTugs,
            FlatMark::MustWait,
            FlatMark::WholeFleet,
        ],
        more,
    );
}

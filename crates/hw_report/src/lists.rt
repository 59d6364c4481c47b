//! Reports with lists of numbers, of any length.

ghost use Rattle.std.specs.Prelude.{◌∷◌, [], codes, decimal};
ghost use Rattle.std.specs.List.{concat};
ghost use Rattle.hw_report.specs.Lines.{broken_text, reported_drop_line, reported_drop_lines, numbers_text};
ghost use Rattle.hw_desk.specs.Writers.{Puts};
ghost use Rattle.hw_report.specs.Reports.{after, clashed, met};
ghost use Rattle.hw_report.specs.Texts.{report_text};

use crate::piece::{Piece, put_pieces};
use hw_desk::Writer;
use hw_flat::Timetable;

/// Puts a space and a number.
fn put_spaced<W: Writer>(out: &mut W, number: u32)
    ensures { Puts (concat (codes " " ∷ decimal number ∷ [])) (W.state out.old) (W.state out.new) }
{
    put_pieces(out, &[Piece::Word(b" "), Piece::Number(u64::from(number))]);
}

/// Puts numbers, each after a space.
fn put_numbers<W: Writer>(out: &mut W, numbers: &[u32])
    ensures { Puts (numbers_text numbers.now) (W.state out.old) (W.state out.new) }
{
    for number in numbers {
        put_spaced(out, *number);
    }
}

/// Puts the line of a restriction and a timetable that meets the others.
fn put_drop<W: Writer>(out: &mut W, id: u32, table: &Timetable)
    ensures { Puts (reported_drop_line id table.now) (W.state out.old) (W.state out.new) }
{
    out.put(b"drop ");
    out.put_number(u64::from(id));
    put_numbers(out, table.as_slice());
    out.put(b"\n");
}

/// Puts the lines of restrictions, as many as both lists have.
fn put_drops<W: Writer>(out: &mut W, kept: &[u32], drops: &[Timetable])
    ensures { Puts (reported_drop_lines kept.now drops.now) (W.state out.old) (W.state out.new) }
{
    for i in 0..kept.len().min(drops.len()) {
        put_drop(out, kept[i], &drops[i]);
    }
}

/// Puts restrictions that can't be met together, and for each one a timetable that meets the others.
pub fn put_clash<W: Writer>(out: &mut W, kept: &[u32], drops: &[Timetable])
    ensures { Puts (report_text (clashed kept.now drops.now)) (W.state out.old) (W.state out.new) }
{
    out.put(b"clash 1\nkeep");
    put_numbers(out, kept);
    out.put(b"\n");
    put_drops(out, kept, drops);
    out.put(b"end\n");
}

/// Puts a timetable that meets all restrictions.
pub fn put_met<W: Writer>(out: &mut W, table: &Timetable)
    ensures { Puts (report_text (met table.now)) (W.state out.old) (W.state out.new) }
{
    out.put(b"met");
    put_numbers(out, table.as_slice());
    out.put(b"\n");
}

/// Puts the numbers of broken restrictions, or that there are none.
fn put_broken<W: Writer>(out: &mut W, broken: &[u32])
    ensures { Puts (broken_text broken.now) (W.state out.old) (W.state out.new) }
{
    match broken {
        [] => out.put(b" none"),
        [_, ..] => put_numbers(out, broken),
    }
}

/// Puts the restrictions broken after this many events.
pub fn put_after<W: Writer>(out: &mut W, number: u64, broken: &[u32])
    ensures { Puts (report_text (after number broken.now)) (W.state out.old) (W.state out.new) }
{
    out.put(b"after ");
    out.put_number(number);
    put_broken(out, broken);
    out.put(b"\n");
}

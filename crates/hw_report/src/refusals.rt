//! Reports of what was refused.

ghost use Rattle.std.specs.Prelude.{◌≡◌, ◌∷◌, [], codes};
ghost use Rattle.std.specs.List.{concat};
ghost use Rattle.hw_desk.specs.Writers.{Puts};
ghost use Rattle.hw_report.specs.Reports.{bad_field, bad_flat, bad_text, bad_tides, refused};
ghost use Rattle.hw_report.specs.Texts.{named_by, report_text};
ghost use Rattle.hw_report.specs.Words.{feed_text};

use crate::lines::put_numbered;
use crate::piece::{Piece, put_pieces};
use crate::places::put_path;
use crate::report::RefusedWord;
use crate::words::{feed_name, flat_word, refused_word};
use hw_cert::CheckWord;
use hw_desk::{Feed, Writer};
use hw_flat::FlatWord;
use hw_port::PortFault;
use hw_tide::TideFault;

/// Puts a word and a feed on a line.
pub fn put_feed<W: Writer>(out: &mut W, label: &[u8], feed: Feed)
    ensures { Puts (concat (label.now ∷ feed_text feed ∷ codes "\n" ∷ [])) (W.state out.old) (W.state out.new) }
{
    put_pieces(
        out,
        &[
            Piece::Word(label),
            Piece::Word(feed_name(feed)),
            Piece::Word(b"\n"),
        ],
    );
}

/// Puts the first bad line of a flat text.
pub fn put_bad_flat<W: Writer>(out: &mut W, number: u64, word: FlatWord)
    ensures { Puts (report_text (bad_flat number word)) (W.state out.old) (W.state out.new) }
{
    put_pieces(
        out,
        &[
            Piece::Word(b"bad flat "),
            Piece::Number(number),
            Piece::Word(b" "),
            Piece::Word(flat_word(word)),
            Piece::Word(b"\n"),
        ],
    );
}

/// Puts the first fault of an instance.
pub fn put_bad_field<W: Writer>(out: &mut W, fault: PortFault)
    ensures { Puts (report_text (bad_field fault)) (W.state out.old) (W.state out.new) }
{
    out.put(b"bad instance ");
    put_path(out, fault.path);
    put_pieces(
        out,
        &[
            Piece::Word(b" "),
            Piece::Word(fault.word.text()),
            Piece::Word(b"\n"),
        ],
    );
}

/// Puts the first fault of a tide table.
pub fn put_bad_tides<W: Writer>(out: &mut W, fault: TideFault)
    ensures { Puts (report_text (bad_tides fault)) (W.state out.old) (W.state out.new) }
{
    match fault {
        TideFault::Header { column } => {
            put_numbered(out, b"bad tides header ", u64::from(column));
        }
        TideFault::Length { row } => put_numbered(out, b"bad tides length ", row),
        TideFault::Field { row, column } => put_pieces(
            out,
            &[
                Piece::Word(b"bad tides field "),
                Piece::Number(row),
                Piece::Word(b" "),
                Piece::Number(u64::from(column)),
                Piece::Word(b"\n"),
            ],
        ),
        TideFault::Few => out.put(b"bad tides few\n"),
        TideFault::NoMemory => out.put(b"memory\n"),
    }
}

/// The number of a clause or of a toll that a word names.
fn named_number(word: RefusedWord, hint: Option<u32>) -> Option<u32>
    ensures { result ≡ named_by word hint }
{
    match word {
        RefusedWord::Check(CheckWord::Hint | CheckWord::Loose | CheckWord::Dead | CheckWord::Due) =>
            hint,
        _ => None,
    }
}

/// Puts the refusal of a certificate's line.
pub fn put_refused<W: Writer>(out: &mut W, number: u64, word: RefusedWord, hint: Option<u32>)
    ensures { Puts (report_text (refused number word hint)) (W.state out.old) (W.state out.new) }
{
    let line = Piece::Number(number);
    let refusal = Piece::Word(refused_word(word));
    match named_number(word, hint) {
        None => put_pieces(
            out,
            &[
                Piece::Word(b"refused "),
                line,
                Piece::Word(b" "),
                refusal,
                Piece::Word(b"\n"),
            ],
        ),
        Some(id) => put_pieces(
            out,
            &[
                Piece::Word(b"refused "),
                line,
                Piece::Word(b" "),
                refusal,
                Piece::Word(b" "),
                Piece::Number(u64::from(id)),
                Piece::Word(b"\n"),
            ],
        ),
    }
}

/// Puts the first wrong line of a plan or of events.
pub fn put_bad_text<W: Writer>(out: &mut W, feed: Feed, number: u64, word: &[u8])
    ensures { Puts (report_text (bad_text feed number word.now)) (W.state out.old) (W.state out.new) }
{
    put_pieces(
        out,
        &[
            Piece::Word(b"bad "),
            Piece::Word(feed_name(feed)),
            Piece::Word(b" "),
            Piece::Number(number),
            Piece::Word(b" "),
            Piece::Word(word),
            Piece::Word(b"\n"),
        ],
    );
}

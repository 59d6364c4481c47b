//! The fields of a record.

ghost use Rattle.std.specs.Prelude.{◌≡◌, ◌∷◌, ◌++◌, [], codes, decimal};
ghost use Rattle.csv.specs.Writing.{default_writer, escaped, field_text, fields_text, needs_byte, needs_quotes as needs_quotes_of, quoted};
ghost use Rattle.hw_desk.specs.Writers.{Puts};
ghost use Rattle.hw_port_csv.specs.Fields.{centimetres, field_of, fields_of, tonnes, tonnes_text};

use hw_desk::Writer;
use hw_port_windows::put_signed;

/// A field of a record.
#[derive(Clone, Copy)]
pub enum Field<'t> {
    Text(&'t [u8]),
    Number(u64),
    /// Centimetres, which may be below 0; empty where they aren't known.
    Centimetres(Option<i64>),
    /// Tenths of a tonne; empty where they aren't known.
    Tonnes(Option<u64>),
}

/// Whether a byte can't stand in a field without quotes.
fn is_mark(byte: u8) -> bool
    ensures { result ≡ needs_byte default_writer byte }
{
    byte == b',' || byte == b'"' || byte == b'\r' || byte == b'\n'
}

/// Whether a field calls for quotes.
fn needs_quotes(text: &[u8]) -> bool
    ensures { result ≡ needs_quotes_of default_writer text.now }
{
    for byte in text {
        if is_mark(*byte) {
            return true;
        }
    }
    false
}

/// Puts a byte between quotes.
#[tactic(auto, unfolding(csv::specs::Writing::escaped))]
fn put_byte<W: Writer>(out: &mut W, byte: u8)
    ensures { Puts (escaped default_writer (byte ∷ [])) (W.state out.old) (W.state out.new) }
{
    match byte {
        b'"' => out.put(b"\"\""),
        _ => out.put(&[byte]),
    }
}

/// Puts the bytes of a field between its quotes.
fn put_escaped<W: Writer>(out: &mut W, text: &[u8])
    ensures { Puts (escaped default_writer text.now) (W.state out.old) (W.state out.new) }
{
    for byte in text {
        put_byte(out, *byte);
    }
}

/// Puts a field in quotes.
fn put_quoted<W: Writer>(out: &mut W, text: &[u8])
    ensures { Puts (quoted default_writer text.now) (W.state out.old) (W.state out.new) }
{
    out.put(b"\"");
    put_escaped(out, text);
    out.put(b"\"");
}

/// Puts a field of text, in quotes where it calls for them.
fn put_text<W: Writer>(out: &mut W, text: &[u8])
    ensures { Puts (field_text default_writer text.now) (W.state out.old) (W.state out.new) }
{
    if needs_quotes(text) {
        put_quoted(out, text);
    } else {
        out.put(text);
    }
}

/// Puts centimetres.
fn put_centimetres<W: Writer>(out: &mut W, length: Option<i64>)
    ensures { Puts (field_text default_writer (centimetres length)) (W.state out.old) (W.state out.new) }
{
    match length {
        Some(number) => put_signed(out, number),
        None => out.put(b""),
    }
}

/// Puts tenths of a tonne as tonnes.
fn put_tenths<W: Writer>(out: &mut W, tenths: u64)
    ensures { Puts (tonnes_text tenths) (W.state out.old) (W.state out.new) }
{
    out.put_number(tenths / 10);
    out.put(b".");
    out.put_number(tenths % 10);
}

/// Puts tonnes.
fn put_tonnes<W: Writer>(out: &mut W, amount: Option<u64>)
    ensures { Puts (field_text default_writer (tonnes amount)) (W.state out.old) (W.state out.new) }
{
    match amount {
        Some(tenths) => put_tenths(out, tenths),
        None => out.put(b""),
    }
}

/// Puts a number, which calls for no quotes.
fn put_number<W: Writer>(out: &mut W, number: u64)
    ensures { Puts (field_text default_writer (decimal number)) (W.state out.old) (W.state out.new) }
{
    out.put_number(number);
}

/// Puts a field, in quotes where it holds a comma, a quote, a carriage return or a line feed. Its quotes are doubled.
pub fn put_field<W: Writer>(out: &mut W, field: Field)
    ensures { Puts (field_text default_writer (field_of field.entry)) (W.state out.old) (W.state out.new) }
{
    match field {
        Field::Text(text) => put_text(out, text),
        Field::Number(number) => put_number(out, number),
        Field::Centimetres(length) => put_centimetres(out, length),
        Field::Tonnes(amount) => put_tonnes(out, amount),
    }
}

/// Puts what stands between two fields.
pub fn put_comma<W: Writer>(out: &mut W)
    ensures { Puts (codes ",") (W.state out.old) (W.state out.new) }
{
    out.put(b",");
}

/// Puts the end of a record.
pub fn put_line_end<W: Writer>(out: &mut W)
    ensures { Puts (codes "\n") (W.state out.old) (W.state out.new) }
{
    out.put(b"\n");
}

/// Puts a field after others: a comma and the field.
pub fn put_next<W: Writer>(out: &mut W, field: Field)
    ensures { Puts (codes "," ++ field_text default_writer (field_of field.entry)) (W.state out.old) (W.state out.new) }
{
    put_comma(out);
    put_field(out, field);
}

/// Puts fields after others, at most a dozen.
#[tactic(auto, unfolding(csv::specs::Writing::fields_text))]
pub fn put_fields<W: Writer>(out: &mut W, fields: &[Field])
    ensures { Puts (fields_text default_writer (fields_of fields.now)) (W.state out.old) (W.state out.new) }
{
    if let [field, more @ ..] = fields {
        put_next(out, *field);
        put_fields(out, more);
    }
}

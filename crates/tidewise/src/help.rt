//! The help: each form of a command with what it does, and what to know of all of them.

ghost use Rattle.std.specs.Prelude.{◌≡◌, length, map};
ghost use Rattle.hw_desk.specs.Writers.{Puts};
ghost use Rattle.hw_app.specs.Forms.{forms};
ghost use Rattle.tidewise.specs.Info.{form_text, forms_text, help_text, purposes};

use hw_app::{FORMS, Form, put_usage};
use hw_desk::Writer;

/// What stands before the commands.
pub const HEAD: &str = "\
Tidewise plans the sailings of a bulk export port, with certificates to check.

Commands:
";

/// What the commands do, in a line each, in the order of `FORMS`.
pub const PURPOSES: [&str; 60] = [
    "looks for a best timetable of a flat text, and writes a certificate to PROOF",
    "looks for a best timetable of a port, and writes a certificate to PROOF",
    "looks for a best timetable of a flat text with prices, and writes a certificate to PROOF",
    "looks for a best timetable of a port with prices, and writes a certificate to PROOF",
    "the same for a flat text by another way, which SEED chooses: for several runs at once",
    "the same for a port",
    "goes on from a certificate of a flat text, and writes a longer one to PROOF",
    "goes on from a certificate of a port, and writes a longer one to PROOF",
    "makes a split of a flat text into parts, by its prices and the best timetable of a certificate",
    "the same for a port",
    "goes on from a certificate of a flat text within one part of a split, for several machines at once",
    "the same for a port",
    "joins the certificates of the parts of a split of a flat text into one, PROOF",
    "the same for a port",
    "says what a certificate shows of a flat text, or its first bad line",
    "says what a certificate shows of a port, or its first bad line",
    "says what a certificate shows of a flat text, with its bound, or its first bad line",
    "says what a certificate shows of a port, with its bound, or its first bad line",
    "prints the plan that a certificate of a flat text shows, as an SVG picture",
    "prints the plan that a certificate of a port shows, as an SVG picture",
    "prints the repaired plan that a certificate shows, against the plan, as an SVG picture",
    "the same for a port's plan",
    "marks in a port's picture which restrictions can't be met together, by a clash and its certificate",
    "prints the plan that a certificate of a port shows, as CSV for a spreadsheet",
    "the same of a repaired plan",
    "checks a certificate of a flat text, and writes a leaner one to PROOF",
    "checks a certificate of a port, and writes a leaner one to PROOF",
    "lets searchers take turns on a flat text, and writes a certificate to PROOF",
    "lets searchers take turns on a port, and writes a certificate to PROOF",
    "looks for a best repair of a plan, with the fewest ships moved",
    "looks for a best repair of a port's plan, with the fewest ships moved",
    "looks for a best repair of a plan with prices, and writes a certificate to PROOF",
    "looks for a best repair of a port's plan with prices, and writes a certificate to PROOF",
    "the same for a flat text by another way, which SEED chooses",
    "the same for a port's plan",
    "says what a certificate shows of a plan's repair, or its first bad line",
    "says what a certificate shows of the repair of a port's plan",
    "says what a certificate shows of a plan's repair, with its bound, or its first bad line",
    "says what a certificate shows of the repair of a port's plan, with its bound",
    "tells which ships a certificate's repair moves, and the cargo each wins or loses against the plan",
    "the same for a port's plan, in tonnes and by the ships' names",
    "lists restrictions that can't be met together, none of which can be left out",
    "the same for a port, whose restrictions `explain port` tells by their numbers",
    "lists restrictions and wishes of a plan that can't be met together",
    "the same for a port's plan",
    "says whether the restrictions that a clash lists can't be met together",
    "the same for a port",
    "says whether the restrictions and wishes that a clash lists can't be met together",
    "the same for a port's plan",
    "tells each restriction of a port by its number, in the port's own words",
    "tells when each ship of a port may sail, and why not",
    "tells why an instance or a tide table is refused, or what in them is likely meant otherwise",
    "prints the linear programme of a flat text for other solvers, in the LP format",
    "prints the linear programme of a port for other solvers, in the LP format",
    "prints the linear programme of a flat text for other solvers, in the OPB format",
    "prints the linear programme of a port for other solvers, in the OPB format",
    "tells after each event which restrictions a port's plan breaks",
    "prints the plan of a repair that a port's plan and the events so far give",
    "prints the flat text of a port",
    "draws a problem by NUMBER, solves it, and checks its own certificate",
];

/// What stands after them.
pub const TAIL: &str = "  --help, -h
      prints this
  --version, -V
      prints the version

Statuses  0 optimal, or a text was printed  1 infeasible  2 unfinished  3 no command
          4 an input doesn't read  5 the certificate is refused  6 a file can't be read
          7 standard output or PROOF can't be written  8 a file or a line is too long
          9 out of memory
Limits    1 to 40 ships, 1 to 512 slots, a BUDGET of 1 to 100000 lemmas; 4194304 bytes
          a file, but 1099511627776 a certificate, with 1048576 in each of its lines
Units     slots count from 0, and minutes from the start of slot 0; drafts in centimetres;
          cargo in tonnes for a port, and in tenths of a tonne for a flat text
PROOF     is overwritten if it is there, but never if the command reads it
README.md in the repository of Tidewise says more, and docs/FORMATS.md has every form.
";

/// Puts a form of a command, and what it does.
fn put_form<W: Writer>(out: &mut W, form: Form, purpose: &str)
    ensures { Puts (form_text form purpose.now) (W.state out.old) (W.state out.new) }
{
    out.put(b"  ");
    put_usage(out, form);
    out.put(b"\n      ");
    out.put(purpose.as_bytes());
    out.put(b"\n");
}

fn put_forms<W: Writer>(out: &mut W, forms: &[Form], purposes: &[&str])
    ensures { Puts (forms_text forms.now (map (λ text. text.now) purposes.now)) (W.state out.old) (W.state out.new) }
{
    match forms {
        [] => {}
        [form, more @ ..] => match purposes {
            [] => {}
            [purpose, others @ ..] => {
                put_form(out, *form, purpose);
                put_forms(out, more, others);
            }
        },
    }
}

/// Puts the help, which has each form that there is.
pub fn put_help<W: Writer>(out: &mut W)
    ensures text { Puts help_text (W.state out.old) (W.state out.new) }
    ensures each { length purposes ≡ length forms }
{
    out.put(HEAD.as_bytes());
    put_forms(out, &FORMS, &PURPOSES);
    out.put(TAIL.as_bytes());
}

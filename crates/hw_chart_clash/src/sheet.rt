//! The style sheet of the marks.

ghost use Rattle.hw_desk.specs.Writers.{Puts};
ghost use Rattle.hw_chart_clash.specs.Heads.{clash_style};

use hw_desk::Writer;

/// What the marks of a clash look like, light and dark. It names nothing outside the picture.
pub const CLASH_MARKS: &[u8] = b"<style>\n\
    .cw{fill:#d0021b}.cp{fill:none;stroke:#d0021b;stroke-width:2}.cl{fill:#d0021b;fill-opacity:.6}\n\
    @media screen and (prefers-color-scheme:dark){\
    .cw{fill:#ff5a5f}.cp{stroke:#ff5a5f}.cl{fill:#ff5a5f}}\n\
    </style>\n";

/// Puts the style sheet of the marks.
pub fn put_clash_style<W: Writer>(out: &mut W)
    ensures { Puts clash_style (W.state out.old) (W.state out.new) }
{
    out.put(CLASH_MARKS);
}

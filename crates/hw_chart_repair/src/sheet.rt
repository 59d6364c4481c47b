//! The style sheet of the marks.

ghost use Rattle.hw_desk.specs.Writers.{Puts};
ghost use Rattle.hw_chart_repair.specs.Heads.{marks_style};

use hw_desk::Writer;

/// What the marks of a repair look like, light and dark: old slots, ships that have sailed, and stripes over the slots
/// before those that the plan leaves, one in each slot. It names nothing outside the picture.
pub const MARKS: &[u8] = b"<style>\n\
    .gh{fill:#7b2fa8;fill-opacity:.7}.sd{fill:#1e7a4c}.ht{fill:url(#ht)}\
    .hs{stop-color:#526170;stop-opacity:.55}.ho{stop-opacity:0}\n\
    @media screen and (prefers-color-scheme:dark){\
    .gh{fill:#d29bf5}.sd{fill:#4fd08f}.hs{stop-color:#9fadba}}\n\
    </style>\n\
    <linearGradient id=\"ht\" gradientUnits=\"userSpaceOnUse\" x1=\"0\" y1=\"0\" x2=\"1\" y2=\"0\" \
    spreadMethod=\"repeat\"><stop class=\"hs\" offset=\".4\"/><stop class=\"ho\" offset=\".4\"/>\
    </linearGradient>\n";

/// Puts the style sheet of the marks.
pub fn put_marks_style<W: Writer>(out: &mut W)
    ensures { Puts marks_style (W.state out.old) (W.state out.new) }
{
    out.put(MARKS);
}

//! The hatch of a picture.

ghost use Rattle.hw_desk.specs.Writers.{Puts};
ghost use Rattle.hw_chart.specs.Hatches.{hatch};

use hw_desk::Writer;

/// What shapes of the class `ha` look like: stripes of the class `be`. It stands once in a picture that has such shapes, and
/// names nothing outside it.
pub const HATCH: &[u8] = b"<style>.ha{fill:url(#ha)}</style>\n\
    <pattern id=\"ha\" width=\"6\" height=\"6\" patternUnits=\"userSpaceOnUse\">\
    <path class=\"be\" d=\"M0 6L6 0H4L0 4zM6 6V4L4 6z\"/></pattern>\n";

/// Puts what hatched shapes look like, once and before the first of them.
pub fn put_hatch<W: Writer>(out: &mut W)
    ensures { Puts hatch (W.state out.old) (W.state out.new) }
{
    out.put(HATCH);
}

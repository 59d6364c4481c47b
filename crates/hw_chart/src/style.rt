//! The style sheet of a picture.

ghost use Rattle.hw_desk.specs.Writers.{Puts};
ghost use Rattle.hw_chart.specs.Headings.{style};

use hw_desk::Writer;

/// What the classes of shapes and lines look like: as wide as the window within limits, light, dark on a screen that prefers
/// dark, and whole on one page of paper, upright from 20 ships on. It names no script, no font file and no address.
pub const STYLE: &[u8] = b"<style>\n\
    text{font:12px \"Segoe UI\",\"Helvetica Neue\",Arial,\"Liberation Sans\",sans-serif;\
    font-variant-numeric:tabular-nums;white-space:pre;fill:#16222e}\n\
    svg:root{width:100%;min-width:960px;max-width:1600px;height:auto}\n\
    .h{font-size:22px;font-weight:600}.b{font-weight:600}.m{font-size:11px;fill:#526170}\
    .r{text-anchor:end}.c{text-anchor:middle}.q{font-weight:600;fill:#a83800}\n\
    .gr{fill:#fff}.bd{fill:#f7f9fb}.wi{fill:#dfe4ea}.wa{fill:#b9dff0}.dr{fill:#aec0df}\
    .fl{fill:#7696c9}.pl{fill:#4a6fa5}\n\
    .ou{fill:#0a4a7d}.in{fill:#c24a00}.tu{fill:#2c8a68}.ba{fill:#a6d5c2}.be{fill:#8a96a1}\
    .fu{fill:#8c1d62}\n\
    .ln{stroke:#16222e;stroke-opacity:.13;fill:none}\
    .hz{stroke:#526170;stroke-dasharray:4 3;fill:none}\
    .ck{stroke:#fff;stroke-width:3;fill:none}\n\
    .mk{fill-opacity:.9}.ga{fill-opacity:.7}\n\
    @media screen and (prefers-color-scheme:dark){\n\
    text{fill:#e8eef4}.m{fill:#9fadba}.q{fill:#ffb27a}\n\
    .gr{fill:#0e161f}.bd{fill:#131c25}.wi{fill:#212d39}.wa{fill:#1c4a61}.dr{fill:#38507a}\
    .fl{fill:#5074ae}.pl{fill:#89abe0}\n\
    .ou{fill:#8ccbff}.in{fill:#ff9d57}.tu{fill:#45c194}.ba{fill:#22584a}.be{fill:#75828e}\
    .fu{fill:#f28cc9}\n\
    .ln{stroke:#e8eef4}.hz{stroke:#9fadba}.ck{stroke:#0e161f}}\n\
    @media print{svg:root{min-width:0;max-width:none;height:100vh}\
    svg:root:has(g g:nth-of-type(20)){page:tall}}\n\
    @page{size:landscape;margin:8mm}@page tall{size:portrait}\n\
    </style>\n";

/// Puts the style sheet.
pub fn put_style<W: Writer>(out: &mut W)
    ensures { Puts style (W.state out.old) (W.state out.new) }
{
    out.put(STYLE);
}

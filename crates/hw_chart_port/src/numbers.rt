//! Numbers of a port as a picture uses them.

ghost use Rattle.std.specs.Prelude.{◌≡◌, ◌≤◌, ◌*◌, pos};
ghost use Rattle.hw_port.specs.Kept.{Within};
ghost use Rattle.hw_port_model.specs.Numbers.{whole};
ghost use Rattle.hw_chart_port.specs.Charts.{by_direction, tall_over as tall_of};
ghost use Rattle.hw_port_windows.specs.Statuses.{full_draft};

use hw_draft::natural;
use hw_port::Ship;

/// The product of two numbers.
pub fn product(a: u32, b: u32) -> u64
    ensures value { result ≡ a * b }
    ensures few { result ≤ 18_446_744_065_119_617_025 }
{
    u64::from(a) * u64::from(b)
}

/// How tall a window is that shows this many units.
pub fn tall_over(units: u64) -> u64
    requires { units ≤ 4_294_967_295 }
    ensures { result ≡ tall_of units }
{
    units + units / 8 + 1
}

/// The draft at which a ship sails that the water doesn't keep back, in centimetres.
pub fn natural_full(ship: &Ship) -> u32
    requires light { Within (pos 0) (pos 10_000) ship.now.light }
    requires deep { Within (pos 0) (pos 10_000) ship.now.deep }
    ensures { result ≡ whole (full_draft ship.now) }
{
    if ship.is_outgoing() {
        natural(ship.deep)
    } else {
        natural(ship.light)
    }
}

/// The first of two texts for a ship that goes out, and the second for one that comes in.
pub fn by_direction(ship: &Ship, goes_out: &'static [u8], comes_in: &'static [u8]) -> &'static [u8]
    ensures { result.now ≡ by_direction ship.now goes_out.now comes_in.now }
{
    if ship.is_outgoing() {
        goes_out
    } else {
        comes_in
    }
}

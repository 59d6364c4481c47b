//! The first pass of a route at a waypoint.

ghost use Rattle.std.specs.Prelude.{◌≡◌, ◌≤◌, pos, All, IfSome};
ghost use Rattle.hw_port.specs.Kept.{PassKept};
ghost use Rattle.hw_port_csv.specs.Passes.{offset_at};

use hw_draft::natural;
use hw_port::Pass;

/// How many slots after sailing a route first names a waypoint.
pub fn offset_at(waypoints: usize, route: &[Pass], place: u32) -> Option<u32>
    requires few { waypoints ≤ 16 }
    requires route { All (PassKept (pos waypoints)) route.now }
    ensures value { result ≡ offset_at route.now place }
    ensures few { IfSome result (λ offset. offset ≤ 1_023) }
{
    match route {
        [] => None,
        [pass, more @ ..] => {
            if natural(pass.waypoint) == place {
                Some(natural(pass.offset))
            } else {
                offset_at(waypoints, more, place)
            }
        }
    }
}

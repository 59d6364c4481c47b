//! The numbers of the list items on the way to a place.

ghost use Rattle.std.specs.Prelude.{◌≡◌};
ghost use Rattle.hw_read.specs.Places.{path, deeper};

use hw_port::{Path, Place};

/// The numbers of the list items on the way to a place, the outer one first.
#[derive(Clone, Copy)]
pub struct Stars {
    pub first: Option<u32>,
    pub second: Option<u32>,
}

/// The path of a place.
pub fn path_of(place: Place, stars: Stars) -> Path
    ensures { result ≡ path place stars }
{
    Path {
        field: place.number(),
        first: stars.first,
        second: stars.second,
    }
}

/// The numbers on the way to an item of a list.
pub fn stars_of(stars: Stars, item: u32) -> Stars
    ensures { result ≡ deeper stars item }
{
    match stars.first {
        None => Stars {
            first: Some(item),
            second: None,
        },
        Some(first) => Stars {
            first: Some(first),
            second: Some(item),
        },
    }
}

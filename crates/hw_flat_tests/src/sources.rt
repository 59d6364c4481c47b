//! The list of a problem's sources.

use hw_flat::{Flat, Source};
use hw_rules::sources;
use std::test::Fail;

const PROBLEM: &[u8] =
    b"flat 1\nsize 3 6\nv - 0 - - - -\nv 5 9 7 - 2 1\nv 0 3 3 3 3 4\np 0 1 -1:1\np 0 1 0:0 2:3\ns 0 1 2\ns 1 0 2\nu 1 0:1:2 1:1:2\nend\n";

const SOURCES: [Source; 10] = [
    Source::Window { ship: 0 },
    Source::Window { ship: 1 },
    Source::Window { ship: 2 },
    Source::Rule { place: 0 },
    Source::Rule { place: 1 },
    Source::Rule { place: 2 },
    Source::Rule { place: 3 },
    Source::Rule { place: 4 },
    Source::Order { v: 0, w: 1, x: 2 },
    Source::Goal,
];

#[test]
fn sources_in_order(rt: HostRuntime) -> Result<(), Fail> {
    let flat = Flat::read(rt.alloc(), PROBLEM)?;
    let listed = sources(rt.alloc(), &flat)?;
    assert_eq!(rt; listed.as_slice(), SOURCES.as_slice());
    Ok(())
}

//! Tide tables where heights are wanted, or waters.

use hw_port::Port;
use hw_read::{ReadFault, read_port};
use hw_tide::{read_heights, read_waters};
use std::alloc::Global;
use std::test::Fail;

/// One ship that goes out.
const SMALL: &[u8] = br#"{"version":1,"slots":2,"slot_minutes":15,
 "waypoints":[{"name":"Berth","depth":1500},{"name":"Bar","depth":1480}],
 "sections":[],"separation":[[1]],
 "turnaround":{"outgoing":1,"incoming":1},"fleet":4,
 "ships":[{"name":"Cape Grace","direction":"outgoing","class":0,
  "earliest":0,"latest":1,"tpc":1200,"light":1400,"deep":1620,
  "route":[{"waypoint":0,"offset":0,"clearance":120},
           {"waypoint":1,"offset":2,"clearance":120}],
  "channel":[],"tugs":2,"job":2}],
 "berths":[]}
"#;

const HEIGHTS: &[u8] = b"slot,Berth,Bar\n0,210,0\n1,200,250\n2,190,260\n";

const WATERS: &[u8] = b"water,Berth,Bar\n0,40,40\n6,400,400\n";

fn port(alloc: Global) -> Result<Port, ReadFault> {
    read_port(alloc, SMALL)
}

#[test]
fn tables_of_one_kind(rt: HostRuntime) -> Result<(), Fail> {
    let port = port(rt.alloc())?;
    assert!(rt; read_heights(rt.alloc(), HEIGHTS, &port).is_ok());
    assert!(rt; read_waters(rt.alloc(), HEIGHTS, &port).is_err());
    assert!(rt; read_waters(rt.alloc(), WATERS, &port).is_ok());
    assert!(rt; read_heights(rt.alloc(), WATERS, &port).is_err());
    Ok(())
}

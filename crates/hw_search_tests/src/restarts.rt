//! When a search begins again from level 0.

use crate::problems::SEVEN;
use crate::turns::whole_run;
use hw_cert::{Line, MemoryLog};
use hw_flat::Flat;
use hw_search_sources::luby;
use hw_store::WatchStore;
use std::process::Abort;
use std::test::Fail;

const LUBY: [u64; 15] = [1, 1, 2, 1, 1, 2, 4, 1, 1, 2, 1, 1, 2, 4, 8];

#[test]
fn restarts_come(rt: HostRuntime) {
    for (place, number) in LUBY.iter().enumerate() {
        assert_eq!(rt; luby(place as u64 + 1), *number);
    }
}

// The number of lemmas at each restart.
const RESTARTS: [usize; 7] = [32, 64, 128, 160, 192, 256, 384];

// A lemma goes back to level 0 where it has one literal or a restart is due, and nowhere else.
#[test]
fn restarts_go_to_level_0(rt: HostRuntime) -> Result<(), Fail> {
    let alloc = rt.alloc();
    let flat = Flat::read(alloc, SEVEN)?;
    let store = WatchStore::new(alloc, &flat)?;
    let mut log = MemoryLog::new(alloc);
    let run = whole_run(alloc, &flat, store, 390, &mut log)?;
    let mut lemmas = 0usize;
    for line in log.lines() {
        if let Line::Lemma { clause, .. } = line {
            if let Some(level) = run.levels.get(lemmas) {
                lemmas += 1;
                let back = clause.len() == 1 || RESTARTS.contains(&lemmas);
                assert_eq!(rt; *level == 0, back, "behind lemma {lemmas}");
            }
        }
    }
    assert!(rt; lemmas > 128);
    Ok(())
}

//! How much of each relaxed row is taken, and where its price goes: a component of the subgradient, and of the
//! direction.
//!
//! The direction is deflected, which means that part of the last one is kept: P. M. Camerini, L. Fratta and F.
//! Maffioli, "On Improving Relaxation Methods by Modified Gradient Techniques", Mathematical Programming Study 3,
//! 1975.

use crate::settings::{KEPT, UNIT};
use crate::subproblems::{Share, Subproblem};
use hw_model::NoMemory;

/// What is taken of a row, and where its price goes.
#[derive(Clone, Copy)]
pub(crate) struct RowState {
    pub(crate) capacity: i64,
    pub(crate) usage: i64,
    pub(crate) direction: i64,
    pub(crate) live: bool,
    /// Whether it is known what ships can take of the row in the present room.
    pub(crate) clipped: bool,
}

impl RowState {
    pub(crate) fn new(capacity: i64) -> RowState {
        RowState {
            capacity,
            usage: 0,
            direction: 0,
            live: false,
            clipped: false,
        }
    }

    pub(crate) fn is_overfilled(&self) -> bool {
        self.capacity < self.usage
    }

    /// In another room: nothing is taken, and the price rests.
    pub(crate) fn reset(&mut self) {
        self.usage = 0;
        self.direction = 0;
        self.live = false;
        self.clipped = false;
    }
}

/// The next direction of a row with this price: towards how far it is overfilled. A price never
/// falls below 0.
pub(crate) fn aimed(state: &RowState, price: i64) -> i64 {
    let over = state.usage.wrapping_sub(state.capacity).wrapping_mul(UNIT);
    let kept = state.direction.wrapping_mul(KEPT);
    let direction = kept.wrapping_add(over.wrapping_mul(10 - KEPT)) / 10;
    if direction < 0 && price == 0 {
        0
    } else {
        direction
    }
}

/// Counts what the ships take in the slots that they chose. Rows that are overfilled come alive.
pub(crate) fn take_up(
    subproblems: &mut [Subproblem],
    row_states: &mut [RowState],
    live: &mut Vec<usize>,
) -> Result<(), NoMemory> {
    for subproblem in subproblems.iter_mut() {
        if subproblem.is_elsewhere() {
            put_back(subproblem.taken_shares(), row_states);
            subproblem.move_there();
            take(subproblem.taken_shares(), row_states, live)?;
        }
    }
    Ok(())
}

fn put_back(shares: &[Share], row_states: &mut [RowState]) {
    for share in shares {
        if let Some(state) = row_states.get_mut(share.row) {
            state.usage = state.usage.wrapping_sub(share.units);
        }
    }
}

fn take(
    shares: &[Share],
    row_states: &mut [RowState],
    live: &mut Vec<usize>,
) -> Result<(), NoMemory> {
    for share in shares {
        if let Some(state) = row_states.get_mut(share.row) {
            state.usage = state.usage.wrapping_add(share.units);
            if !state.live && state.is_overfilled() {
                state.live = true;
                live.push(share.row)?;
            }
        }
    }
    Ok(())
}

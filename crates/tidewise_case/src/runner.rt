//! What runs the words of a case.

ghost use Rattle.hw_desk.specs.Calm.{calm_state};
ghost use Rattle.hw_desk.specs.Memory.{memory_state};
ghost use Rattle.hw_desk.specs.State.{IsNewDesk};

use hw_desk::{CalmDesk, MemoryDesk};
use std::alloc::Global;

/// What runs the words of a case over a desk on which nothing was begun or made, and gives the exit code.
pub trait Runner {
    /// Runs the words over a desk whose calls may fail.
    fn run(alloc: Global, words: &[String], desk: &mut MemoryDesk) -> u8
        requires { IsNewDesk (memory_state desk.old) };

    /// Runs the words over the desk whose calls never fail.
    fn run_calm(alloc: Global, words: &[String], desk: &mut CalmDesk) -> u8
        requires { IsNewDesk (calm_state desk.old) };
}

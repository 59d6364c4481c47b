//! Runs over a desk whose calls never fail.

ghost use Rattle.std.specs.Prelude.{◌≡◌, map, string_bytes};
ghost use Rattle.hw_desk.specs.Calm.{calm_state};
ghost use Rattle.hw_desk.specs.State.{IsNewDesk};
ghost use Rattle.hw_app.specs.Run.{RunMeets};

use crate::running::run;
use hw_command::Status;
use hw_desk::CalmDesk;
use std::alloc::Global;

/// The same as `run`. No fault comes of it.
pub fn run_calm(alloc: Global, words: &[String], desk: &mut CalmDesk) -> Status
    requires { IsNewDesk (calm_state desk.old) }
    ensures runs { RunMeets (map string_bytes words.now) (calm_state desk.old) (calm_state desk.new) result }
    ensures no_read_fault { result ≡ Status.ReadFault → ⊥ }
    ensures no_write_fault { result ≡ Status.WriteFault → ⊥ }
{
    run(alloc, words, desk)
}

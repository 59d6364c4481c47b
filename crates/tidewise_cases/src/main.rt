//! Cases of whole runs of the program, one file a topic, which the arguments name. `tidewise_case` has the form
//! of a case.
#![tactic(auto)]

ghost use Rattle.hw_desk.specs.Calm.{calm_state};
ghost use Rattle.hw_desk.specs.Memory.{memory_state};
ghost use Rattle.hw_desk.specs.State.{IsNewDesk};

use hw_app::{run, run_calm};
use hw_desk::{CalmDesk, Desk, MemoryDesk};
use std::alloc::Global;
use tidewise_case::{Runner, Stop, run_files};

/// The program as the cases run it.
struct App;

/// The exit code of a run. It says nothing of the desk, so that nothing of it is proved again for
/// each kind of desk.
fn code_of_run<D: Desk>(alloc: Global, words: &[String], desk: &mut D) -> u8
    requires { IsNewDesk (D.state desk.old) }
{
    run(alloc, words, desk).code()
}

impl Runner for App {
    fn run(alloc: Global, words: &[String], desk: &mut MemoryDesk) -> u8 {
        code_of_run(alloc, words, desk)
    }

    fn run_calm(alloc: Global, words: &[String], desk: &mut CalmDesk) -> u8 {
        run_calm(alloc, words, desk).code()
    }
}

fn main(rt: HostRuntime) -> Result<(), Stop> {
    run_files::<App>(&rt)
}

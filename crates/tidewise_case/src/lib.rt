//! Cases of whole runs: each is run over a desk in memory, and what comes of it is compared with what
//! the case wants.
//!
//! The arguments are files of cases, one file a topic. A file is lines. `case` begins a case, and what
//! follows holds up to the next one:
//!
//!     case NAME ..      begins a case, named by what it shows
//!     file NAME         a file of the desk, whose lines follow
//!     |TEXT             a line of it
//!     +TEXT             bytes of it without a line end
//!     *COUNT TEXT       a line of it, COUNT times
//!     -COUNT TEXT       bytes of it without a line end, COUNT times
//!     most N ..         how many bytes a call moves at most (4096); one run for each number
//!     room N            how many bytes a tray takes (65536)
//!     fail CALL PLACE   a call that fails, by its kind and its place among those, from 1
//!     each CALL         a run for each place, up to the run in which no call of the kind fails
//!     calm              the desk whose calls never fail
//!     brief             of a run the report and the status alone are wanted
//!     brief N           the same, and of the report the first N lines alone
//!     run WORD ..       runs the words, one space between two; `run` alone runs none. The lines that are
//!                       wanted of it follow
//!     then WORD ..      the same over a desk that also holds what the last run sent to Proof, under
//!                       that run's last word
//!
//! A CALL is `begin`, `read`, `make`, `report` (a write to it) or `proof` (a write to it). In a TEXT
//! `\` and two hexadecimal digits are a byte. An empty line says nothing, nor does one that begins
//! with `#`.
//!
//! What is wanted of a run: the report, each line after `|`, and after `+` what has no line end; then
//! `status CODE proof COUNT` with the number of bytes that Proof holds, and those bytes as the report's;
//! where it is brief, `status CODE` alone. Where there are several runs, `runs I to J` stands before what
//! is wanted of all of these.
//!
//! For a case one line is printed, `ok NAME`. Where the outcome of a run is not the one wanted it is
//! `differs NAME`, and for each such run there follow its line with its number in the file, what is wanted
//! and didn't come, each line after `-`, and what came and isn't wanted, each line after `+`.
#![tactic(auto)]

mod case;
mod compared;
mod files;
mod outcome;
mod runner;
mod runs;
mod setup;
mod shown;
mod stop;

pub use files::run_files;
pub use runner::Runner;
pub use stop::Stop;

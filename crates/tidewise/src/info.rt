//! What the program tells of itself: its help and its version.

ghost use Rattle.std.specs.Prelude.{◌≡◌, map, string_bytes};
ghost use Rattle.hw_desk.specs.Whole.{SendsText};
ghost use Rattle.hw_desk.specs.Writers.{Puts};
ghost use Rattle.tidewise.specs.Info.{build_text, info_of, info_text, info_word};

use crate::help::put_help;
use hw_desk::{Desk, DeskFailed, Tray, TrayWriter, Writer};

/// The version of the program.
pub const VERSION: &str = "1.0.0";

/// Which build this is: whether it was proved, and its commit. Empty in the repository; `tools/quick`
/// and `tools/release` build a copy in which it says so.
pub const BUILD: &str = "";

/// What the program tells of itself, where that alone is asked for.
#[derive(Clone, Copy)]
pub enum Info {
    /// `--help` or `-h`.
    Help,
    /// `--version` or `-V`.
    Version,
}

fn info_word(word: &str) -> Option<Info>
    ensures { result ≡ info_word word.now }
{
    match word {
        "--help" | "-h" => Some(Info::Help),
        "--version" | "-V" => Some(Info::Version),
        _ => None,
    }
}

/// What the words ask the program to tell of itself, or none, where they are a command or neither.
pub fn info_of(words: &[String]) -> Option<Info>
    ensures { result ≡ info_of (map string_bytes words.now) }
{
    match words {
        [word] => info_word(word.as_str()),
        _ => None,
    }
}

/// Puts which build it is, after the version, where it has a name.
fn put_build<W: Writer>(out: &mut W, build: &str)
    ensures { Puts (build_text build.now) (W.state out.old) (W.state out.new) }
{
    match build.as_bytes() {
        [] => {}
        name => {
            out.put(b" ");
            out.put(name);
        }
    }
}

fn put_version<W: Writer>(out: &mut W)
    ensures { Puts (info_text Info.Version) (W.state out.old) (W.state out.new) }
{
    out.put(b"tidewise ");
    out.put(VERSION.as_bytes());
    put_build(out, BUILD);
    out.put(b"\n");
}

fn put_info<W: Writer>(out: &mut W, info: Info)
    ensures { Puts (info_text info) (W.state out.old) (W.state out.new) }
{
    match info {
        Info::Help => put_help(out),
        Info::Version => put_version(out),
    }
}

/// Sends what is asked for to standard output. It takes no memory.
pub fn send_info<D: Desk>(desk: &mut D, info: Info) -> Result<(), DeskFailed>
    ensures { SendsText Tray.Report (info_text info) (D.state desk.old) (D.state desk.new) result }
{
    let mut out = TrayWriter::new(desk, Tray::Report);
    put_info(&mut out, info);
    out.flush()
}

//! Files that are read, made, written over and left as they are.

ghost use Rattle.hw_desk.specs.State.{IsNewDesk};

use hw_desk::{Desk, DeskFailed, Feed, Tray, read_whole, write_all};
use hw_host::HostDesk;
use std::alloc::Global;
use std::fs;
use std::os::unix::fs::symlink;
use std::test::Fail;

const TEXT: &str = "flat 1\nsize 2 3\nv 10 20 30\nv 10 20 30\np 0 1 -1:1\nend\n";

/// A file of 14 kilobytes, which takes several reads.
fn make_long(rt: &HostRuntime) -> Result<(), Fail> {
    let mut text = Vec::new(rt.alloc());
    for _ in 0..2000 {
        text.extend_from_slice(b"g a1.1\n")?;
    }
    fs::write(rt, "host-long", text.as_slice())?;
    Ok(())
}

/// The bytes of a file that is begun and read whole, or none where a call fails.
fn read_on<D: Desk>(alloc: Global, desk: &mut D, name: &str) -> Option<Vec<u8>>
    requires { IsNewDesk (D.state desk.old) }
{
    desk.begin(Feed::Flat, name).ok()?;
    read_whole(alloc, desk, Feed::Flat, 100_000).ok()
}

/// Makes a file and writes the text to it.
fn write_on<D: Desk>(desk: &mut D, name: &str) -> Result<(), DeskFailed>
    requires { IsNewDesk (D.state desk.old) }
{
    desk.make(Tray::Proof, name)?;
    write_all(desk, Tray::Proof, TEXT.as_bytes())
}

/// Begins a file, and then makes another one.
fn make_beside<D: Desk>(
    desk: &mut D,
    feed: Feed,
    input: &str,
    proof: &str,
) -> Result<(), DeskFailed>
    requires { IsNewDesk (D.state desk.old) }
{
    desk.begin(feed, input)?;
    desk.make(Tray::Proof, proof)
}

fn read(rt: &HostRuntime, name: &str) -> Option<Vec<u8>> {
    let mut desk = HostDesk::new(rt);
    read_on(rt.alloc(), &mut desk, name)
}

fn write(rt: &HostRuntime, name: &str) -> Result<(), DeskFailed> {
    let mut desk = HostDesk::new(rt);
    write_on(&mut desk, name)
}

fn made(rt: &HostRuntime, feed: Feed, input: &str, proof: &str) -> Result<(), DeskFailed> {
    let mut desk = HostDesk::new(rt);
    make_beside(&mut desk, feed, input, proof)
}

#[test]
fn files_are_read_whole(rt: HostRuntime) -> Result<(), Fail> {
    fs::write(&rt, "host-two", TEXT)?;
    make_long(&rt)?;
    for name in ["host-two", "host-long"] {
        let bytes = read(&rt, name).ok_or("a call failed")?;
        assert!(rt; bytes == fs::read(&rt, name)?, "{name}");
    }
    for name in ["host-missing", "."] {
        assert!(rt; read(&rt, name).is_none(), "{name}");
    }
    Ok(())
}

/// Over no file, over its own bytes, and over a longer file.
#[test]
fn a_made_file_holds_what_was_written(rt: HostRuntime) -> Result<(), Fail> {
    make_long(&rt)?;
    for name in ["host-proof", "host-proof", "host-long"] {
        assert!(rt; write(&rt, name).is_ok(), "{name}");
        assert!(rt;
            fs::read(&rt, name)?.as_slice() == TEXT.as_bytes(),
            "{name}"
        );
    }
    assert!(rt; write(&rt, "/dev/null").is_ok());
    assert!(rt; write(&rt, ".").is_err());
    Ok(())
}

/// An input, and the name under which a file is made that is the same one: by its name, by another way
/// to it, and by links.
const SLIPS: [(Feed, &str, &str); 12] = [
    (Feed::Flat, "host-two", "host-two"),
    (Feed::Flat, "host-two", "./host-two"),
    (Feed::Flat, "host-two", "host-soft"),
    (Feed::Flat, "host-soft", "host-two"),
    (Feed::Flat, "host-hard", "host-two"),
    (Feed::Instance, "host-two", "host-two"),
    (Feed::Tides, "host-two", "host-two"),
    (Feed::Certificate, "host-two", "host-two"),
    (Feed::Plan, "host-two", "host-two"),
    (Feed::Events, "host-two", "host-two"),
    (Feed::Clash, "host-two", "host-two"),
    (Feed::Split, "host-two", "host-two"),
];

#[test]
fn an_input_is_never_overwritten(rt: HostRuntime) -> Result<(), Fail> {
    fs::write(&rt, "host-two", TEXT)?;
    symlink(&rt, "host-two", "host-soft")?;
    fs::hard_link(&rt, "host-two", "host-hard")?;
    for (feed, input, proof) in SLIPS {
        assert!(rt;
            made(&rt, feed, input, proof).is_err(),
            "{feed:?} {input} {proof}"
        );
        assert!(rt;
            fs::read(&rt, "host-two")?.as_slice() == TEXT.as_bytes(),
            "{feed:?}"
        );
    }
    assert!(rt; made(&rt, Feed::Flat, "host-two", "host-proof").is_ok());
    Ok(())
}

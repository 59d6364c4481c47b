//! Files and standard output as a desk.

ghost use Rattle.std.specs.Prelude.{◌≡◌};
ghost use Rattle.hw_desk.specs.Places.{everywhere};

use crate::files::{HostFile, make_proof, open_feed, read_feed, write_proof};
use crate::output::Output;
use hw_desk::{Desk, DeskFailed, Feed, Feeds, Tray};

/// Files and standard output. It tells no content.
#[derive(Drop)]
pub struct HostDesk<'r> {
    pub rt: &'r HostRuntime,
    pub feeds: Feeds<HostFile>,
    pub output: Output,
    pub report_made: bool,
    pub proof: HostFile,
    pub read_faults: u64,
    pub write_faults: u64,
}

/// Feeds that weren't begun.
fn fresh_files() -> Feeds<HostFile>
    ensures { result ≡ everywhere HostFile.Fresh }
{
    Feeds {
        flat: HostFile::Fresh,
        instance: HostFile::Fresh,
        tides: HostFile::Fresh,
        certificate: HostFile::Fresh,
        plan: HostFile::Fresh,
        events: HostFile::Fresh,
        clash: HostFile::Fresh,
        split: HostFile::Fresh,
    }
}

impl<'r> HostDesk<'r> {
    ghost use Rattle.hw_desk.specs.State.{IsNewDesk};
    ghost use Rattle.hw_host.specs.Host.{host_state};

    /// A desk on which nothing was begun or made.
    pub fn new(rt: &'r HostRuntime) -> HostDesk<'r>
        ensures { IsNewDesk (host_state result) }
    {
        HostDesk {
            rt,
            feeds: fresh_files(),
            output: Output::new(rt),
            report_made: false,
            proof: HostFile::Fresh,
            read_faults: 0,
            write_faults: 0,
        }
    }
}

impl Desk for HostDesk<'_> {
    ghost use Rattle.hw_host.specs.Host.{host_state, host_fresh, host_bounded};

    ghost state = { host_state };

    ghost fresh = { host_fresh };

    ghost bounded = { host_bounded };

    fn begin(&mut self, feed: Feed, name: &str) -> Result<(), DeskFailed> {
        let rt = self.rt;
        open_feed(rt, self.feeds.get_mut(feed), name, &mut self.read_faults)
    }

    fn read(&mut self, feed: Feed, into: &mut [u8]) -> Result<usize, DeskFailed> {
        read_feed(self.feeds.get_mut(feed), into, &mut self.read_faults)
    }

    fn make(&mut self, tray: Tray, name: &str) -> Result<(), DeskFailed> {
        let rt = self.rt;
        match tray {
            Tray::Report => {
                self.report_made = true;
                Ok(())
            }
            Tray::Proof => {
                let faults = &mut self.write_faults;
                make_proof(rt, &self.feeds, &self.output, &mut self.proof, name, faults)
            }
        }
    }

    fn write(&mut self, tray: Tray, bytes: &[u8]) -> Result<usize, DeskFailed> {
        let rt = self.rt;
        match tray {
            Tray::Report => self.output.write(rt, bytes, &mut self.write_faults),
            Tray::Proof => write_proof(&mut self.proof, bytes, &mut self.write_faults),
        }
    }
}

//! The desk in memory whose calls fail where a list says so.

ghost use Rattle.std.specs.Prelude.{◌≡◌, ◌<◌, ◌≤◌, ◌↔◌, ◌+◌, ◌-◌, ◌^◌, ◌⊎◌, [], min, length, take, true, false, IfOk, IfSome, IsNone, OnErr, OnOk, IsErr, IsTrue, MatchResult};
ghost use Rattle.hw_desk.specs.State.{Rose};
ghost use Rattle.hw_desk.specs.Names.{kept_name};
ghost use Rattle.hw_desk.specs.Memory.{fails_at, next_count, fresh_tray, with_sent};

use crate::name::KeptName;
use crate::sent::SentBytes;
use crate::slots::{FeedSlot, NamedBytes, find, fresh_slots, take_some};
use crate::{Desk, DeskFailed, Feed, Feeds, Tray};
use hw_model::NoMemory;
use std::alloc::Global;
use std::marker::Model;

/// A kind of call of a desk.
#[derive(Clone, Copy)]
pub enum DeskCall {
    Begin,
    Read,
    Make,
    WriteReport,
    WriteProof,
}

/// A call that is to fail: its kind, and its place among the calls of that kind, counted from 1.
#[derive(Clone, Copy)]
pub struct FailAt {
    pub call: DeskCall,
    pub place: u32,
}

/// How many calls of each kind there were.
#[derive(Clone, Copy)]
pub struct Calls {
    pub begins: u64,
    pub reads: u64,
    pub makes: u64,
    pub report_writes: u64,
    pub proof_writes: u64,
}

/// A tray of a desk in memory.
#[derive(Drop)]
pub struct TraySlot {
    pub made: bool,
    pub name: KeptName,
    pub sent: SentBytes,
}

/// A desk in memory that tells all but long names, and whose calls fail where a list says.
///
/// A read or a write moves as many bytes as are asked for, at most as many as the desk was made with,
/// as are left, and as have room. A begin fails on a name without a file, and a write on a full tray.
#[derive(Drop)]
pub struct MemoryDesk {
    files: Vec<NamedBytes>,
    most: usize,
    fails: Vec<FailAt>,
    calls: Calls,
    feeds: Feeds<FeedSlot>,
    report: TraySlot,
    proof: TraySlot,
    read_faults: u64,
    write_faults: u64,
}

impl Model for MemoryDesk {
    ghost use Rattle.hw_desk.specs.Memory.{MemoryModel};
    ghost use Rattle.hw_desk.specs.Feeds.{feed_of};
    ghost use Rattle.hw_desk.specs.Places.{map_feeds};
    ghost use Rattle.std.specs.Prelude.{◌≤◌};

    ghost Value = { MemoryModel };

    ghost view = { λ d. record { files = d.files.items; most = d.most; fails = d.fails.items; calls = d.calls; feeds = map_feeds (feed_of d.files.items) d.feeds; report = d.report; proof = d.proof; read_faults = d.read_faults; write_faults = d.write_faults } };

    ghost invariant = { λ d. 1 ≤ d.most };
}

/// Whether the list has this call.
fn is_on(fails: &[FailAt], call: DeskCall, place: u64) -> bool
    ensures { result ≡ fails_at fails.now call place }
{
    fails
        .iter()
        .any(|f| f.call == call && u64::from(f.place) == place)
}

/// Counts a call, and says whether the list has it.
fn is_next(fails: &[FailAt], call: DeskCall, count: &mut u64) -> bool
    ensures count { count.new ≡ next_count count.old }
    ensures listed { result ≡ fails_at fails.now call (next_count count.old) }
{
    *count = count.saturating_add(1);
    is_on(fails, call, *count)
}

/// Counts a fault, up to 2^64 - 1.
pub fn failed(faults: &mut u64) -> DeskFailed
    ensures count { faults.new ≡ next_count faults.old }
    ensures later { faults.old ≤ faults.new }
{
    *faults = faults.saturating_add(1);
    DeskFailed
}

/// Begins a feed on a file, or counts a fault where there is none.
fn open_or_fail(
    slot: &mut FeedSlot,
    name: &str,
    file: Option<usize>,
    faults: &mut u64,
) -> Result<(), DeskFailed>
    ensures slot { slot.new ≡ record { begun = true; name = kept_name name.now; file = file; at = 0 } }
    ensures faults { MatchResult result (λ _. faults.new ≡ faults.old) (λ _. faults.new ≡ next_count faults.old) }
    ensures exactly { IsErr result ↔ IsNone file }
{
    slot.open(name, file);
    if file.is_none() {
        return Err(failed(faults));
    }
    Ok(())
}

/// A tray that wasn't made, which has room for `room` bytes.
fn empty_tray(alloc: Global, room: usize) -> Result<TraySlot, NoMemory>
    ensures { IfOk result (λ tray. tray ≡ fresh_tray room) }
{
    Ok(TraySlot {
        made: false,
        name: KeptName::new(alloc)?,
        sent: SentBytes::new(alloc, room)?,
    })
}

/// Makes the report. What was sent to it before stays if the make fails.
fn make_report(
    slot: &mut TraySlot,
    name: &str,
    listed: bool,
    faults: &mut u64,
) -> Result<(), DeskFailed>
    ensures made { slot.new.made ≡ true }
    ensures name { slot.new.name ≡ kept_name name.now }
    ensures sent { MatchResult result (λ _. slot.new.sent ≡ record slot.old.sent { bytes = [] }) (λ _. slot.new.sent ≡ slot.old.sent) }
    ensures faults { MatchResult result (λ _. faults.new ≡ faults.old) (λ _. faults.new ≡ next_count faults.old) }
    ensures exactly { IsErr result ↔ IsTrue listed }
{
    slot.made = true;
    slot.name.keep(name);
    if listed {
        return Err(failed(faults));
    }
    slot.sent.clear();
    Ok(())
}

/// Makes the proof, with nothing sent to it.
fn make_proof(
    slot: &mut TraySlot,
    name: &str,
    listed: bool,
    faults: &mut u64,
) -> Result<(), DeskFailed>
    ensures slot { slot.new ≡ record { made = true; name = kept_name name.now; sent = record slot.old.sent { bytes = [] } } }
    ensures faults { MatchResult result (λ _. faults.new ≡ faults.old) (λ _. faults.new ≡ next_count faults.old) }
    ensures exactly { IsErr result ↔ IsTrue listed }
{
    slot.made = true;
    slot.name.keep(name);
    slot.sent.clear();
    if listed {
        return Err(failed(faults));
    }
    Ok(())
}

/// Sends some bytes to a tray, or counts a fault.
fn send_or_fail(
    slot: &mut TraySlot,
    most: usize,
    bytes: &[u8],
    listed: bool,
    faults: &mut u64,
) -> Result<usize, DeskFailed>
    requires { 1 ≤ most }
    ensures slot { MatchResult result (λ n. slot.new ≡ with_sent slot.old (take n bytes.now)) (λ _. slot.new ≡ slot.old) }
    ensures count { IfOk result (λ n. n ≡ min (length bytes.now) (min most (slot.old.sent.room - length slot.old.sent.bytes))) }
    ensures faults { MatchResult result (λ _. faults.new ≡ faults.old) (λ _. faults.new ≡ next_count faults.old) }
    ensures exactly { IsErr result ↔ (IsTrue listed ⊎ (slot.old.sent.room ≤ length slot.old.sent.bytes)) }
{
    if listed {
        return Err(failed(faults));
    }
    match slot.sent.send(most, bytes) {
        Some(count) => Ok(count),
        None => Err(failed(faults)),
    }
}

impl MemoryDesk {
    ghost use Rattle.hw_desk.specs.State.{IsNewDesk};
    ghost use Rattle.hw_desk.specs.Memory.{memory_state, new_memory};
    ghost use Rattle.std.specs.Prelude.{Some};

    /// A desk with these files, on which nothing was begun or made. A read or a write moves at most
    /// `most` bytes. It takes `room` bytes for each tray and 256 bytes for each name; of two files of
    /// one name the first is read.
    pub fn new(
        alloc: Global,
        files: Vec<NamedBytes>,
        most: u32,
        room: u32,
        fails: Vec<FailAt>,
    ) -> Result<MemoryDesk, NoMemory>
        requires { 1 ≤ most }
        ensures fresh { IfOk result (λ desk. IsNewDesk (memory_state desk)) }
        ensures value { IfOk result (λ desk. desk ≡ new_memory files.items most room fails.items) }
    {
        Ok(MemoryDesk {
            files,
            most: most as usize,
            fails,
            calls: Calls {
                begins: 0,
                reads: 0,
                makes: 0,
                report_writes: 0,
                proof_writes: 0,
            },
            feeds: fresh_slots(alloc)?,
            report: empty_tray(alloc, room as usize)?,
            proof: empty_tray(alloc, room as usize)?,
            read_faults: 0,
            write_faults: 0,
        })
    }

    /// The bytes sent to a tray.
    pub fn sent(&self, tray: Tray) -> &[u8]
        ensures { ((memory_state self.now).trays tray).sent ≡ Some result.now }
    {
        match tray {
            Tray::Report => self.report.sent.as_slice(),
            Tray::Proof if self.proof.made => self.proof.sent.as_slice(),
            Tray::Proof => &[],
        }
    }
}

impl Desk for MemoryDesk {
    ghost use Rattle.hw_desk.specs.State.{CanSend};
    ghost use Rattle.hw_desk.specs.Memory.{memory_state, memory_fresh, memory_bounded, CountsCall, ReadFaults, WriteFaults, is_listed, write_call, sent_to};
    ghost use Rattle.hw_desk.specs.Files.{held_in};
    ghost use Rattle.hw_desk.specs.Calls.{Begins, Reads, Makes, Writes};

    ghost state = { memory_state };

    ghost fresh = { memory_fresh };

    ghost bounded = { memory_bounded };

    fn begin(&mut self, feed: Feed, name: &str) -> Result<(), DeskFailed>
        requires fresh { ((memory_state self.old).feeds feed).begun ≡ false }
        ensures begins { Begins feed name.now (memory_state self.old) (memory_state self.new) result }
        ensures counts { CountsCall DeskCall.Begin self.old self.new }
        ensures named { ((memory_state self.new).feeds feed).name ≡ kept_name name.now }
        ensures faults { ReadFaults self.old self.new result }
        ensures exactly { IsErr result ↔ (IsTrue (is_listed self.old DeskCall.Begin) ⊎ IsNone (held_in self.old.files name.now)) }
    {
        let listed = is_next(&self.fails, DeskCall::Begin, &mut self.calls.begins);
        let file = if listed {
            None
        } else {
            find(&self.files, name)
        };
        open_or_fail(self.feeds.get_mut(feed), name, file, &mut self.read_faults)
    }

    fn read(&mut self, feed: Feed, into: &mut [u8]) -> Result<usize, DeskFailed>
        requires begun { ((memory_state self.old).feeds feed).begun ≡ true }
        requires some { 0 < length into.old }
        ensures reads { Reads feed into.new (memory_state self.old) (memory_state self.new) result }
        ensures counts { CountsCall DeskCall.Read self.old self.new }
        ensures faults { ReadFaults self.old self.new result }
        ensures count { IfOk result (λ n. IfSome ((memory_state self.old).feeds feed).left (λ left. n ≡ min (length into.old) (min self.old.most (length left)))) }
        ensures exactly { IsErr result ↔ IsTrue (is_listed self.old DeskCall.Read) }
    {
        if is_next(&self.fails, DeskCall::Read, &mut self.calls.reads) {
            return Err(failed(&mut self.read_faults));
        }
        let most = self.most;
        Ok(take_some(&self.files, self.feeds.get_mut(feed), most, into))
    }

    fn make(&mut self, tray: Tray, name: &str) -> Result<(), DeskFailed>
        requires fresh { ((memory_state self.old).trays tray).made ≡ false }
        ensures makes { Makes tray name.now (memory_state self.old) (memory_state self.new) result }
        ensures counts { CountsCall DeskCall.Make self.old self.new }
        ensures named { ((memory_state self.new).trays tray).name ≡ kept_name name.now }
        ensures faults { WriteFaults self.old self.new result }
        ensures exactly { IsErr result ↔ IsTrue (is_listed self.old DeskCall.Make) }
    {
        let listed = is_next(&self.fails, DeskCall::Make, &mut self.calls.makes);
        match tray {
            Tray::Report => make_report(&mut self.report, name, listed, &mut self.write_faults),
            Tray::Proof => make_proof(&mut self.proof, name, listed, &mut self.write_faults),
        }
    }

    fn write(&mut self, tray: Tray, bytes: &[u8]) -> Result<usize, DeskFailed>
        requires made { CanSend tray (memory_state self.old) }
        requires some { 0 < length bytes.now }
        ensures writes { Writes tray bytes.now (memory_state self.old) (memory_state self.new) result }
        ensures counts { CountsCall (write_call tray) self.old self.new }
        ensures faults { WriteFaults self.old self.new result }
        ensures count { IfOk result (λ n. n ≡ min (length bytes.now) (min self.old.most ((sent_to self.old tray).room - length (sent_to self.old tray).bytes))) }
        ensures exactly { IsErr result ↔ (IsTrue (is_listed self.old (write_call tray)) ⊎ ((sent_to self.old tray).room ≤ length (sent_to self.old tray).bytes)) }
    {
        let most = self.most;
        match tray {
            Tray::Report => {
                let listed = is_next(
                    &self.fails,
                    DeskCall::WriteReport,
                    &mut self.calls.report_writes,
                );
                send_or_fail(
                    &mut self.report,
                    most,
                    bytes,
                    listed,
                    &mut self.write_faults,
                )
            }
            Tray::Proof => {
                let listed = is_next(
                    &self.fails,
                    DeskCall::WriteProof,
                    &mut self.calls.proof_writes,
                );
                send_or_fail(&mut self.proof, most, bytes, listed, &mut self.write_faults)
            }
        }
    }
}

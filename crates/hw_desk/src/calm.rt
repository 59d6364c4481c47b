//! The desk in memory whose calls never fail.

ghost use Rattle.std.specs.Prelude.{◌≡◌, ◌<◌, [], IfOk, IfSome, IsOk, true, false, length, min, Some, None, MatchOption};
ghost use Rattle.hw_desk.specs.Names.{kept_name};
ghost use Rattle.hw_desk.specs.CalmBytes.{told_with};

use crate::name::KeptName;
use crate::slots::{FeedSlot, NamedBytes, find, fresh_slots, take_some};
use crate::{Desk, DeskFailed, Feed, Feeds, Tray};
use hw_model::NoMemory;
use std::alloc::Global;
use std::marker::Model;

/// How many bytes a tray keeps.
const ROOM: usize = 1_048_576;

/// The bytes sent to a tray. Once they have no room, none are kept until the tray is cleared.
#[derive(Drop)]
pub struct CalmBytes {
    bytes: Vec<u8>,
    lost: bool,
}

impl Model for CalmBytes {
    ghost use Rattle.std.specs.Prelude.{cond, List, ℕ, Option, None, Some, ◌≤◌, length, vec_capacity};

    ghost Value = { Option (List ℕ) };

    ghost view = { λ s. cond s.lost None (Some s.bytes.items) };

    ghost invariant = { λ s. (1048576 ≤ vec_capacity s.bytes) × (length s.bytes.items ≤ 1048576) };
}

impl CalmBytes {
    /// No bytes.
    pub fn new(alloc: Global) -> Result<CalmBytes, NoMemory>
        ensures { IfOk result (λ sent. sent ≡ Some []) }
    {
        let bytes = Vec::with_capacity(alloc, ROOM)?;
        Ok(CalmBytes { bytes, lost: false })
    }

    /// The bytes, while they are kept.
    pub fn kept(&self) -> Option<&[u8]>
        ensures { MatchOption result (self.now ≡ None) (λ bytes. self.now ≡ Some bytes.now) }
    {
        if self.lost { None } else { Some(&self.bytes) }
    }

    /// Forgets the bytes.
    pub fn clear(&mut self)
        ensures { self.new ≡ Some [] }
    {
        self.bytes.clear();
        self.lost = false;
    }

    /// Sends the bytes.
    pub fn send(&mut self, bytes: &[u8])
        ensures { self.new ≡ told_with self.old bytes.now }
    {
        if !self.lost && bytes.len() <= ROOM - self.bytes.len() {
            self.bytes.extend_from_slice(bytes).unwrap();
        } else {
            self.lost = true;
        }
    }
}

/// A tray that takes all.
#[derive(Drop)]
pub struct CalmTray {
    pub made: bool,
    pub name: KeptName,
    pub sent: CalmBytes,
}

impl CalmTray {
    ghost use Rattle.hw_desk.specs.Calm.{fresh_calm};

    /// A tray that wasn't made.
    pub fn new(alloc: Global) -> Result<CalmTray, NoMemory>
        ensures { IfOk result (λ tray. tray ≡ fresh_calm) }
    {
        Ok(CalmTray {
            made: false,
            name: KeptName::new(alloc)?,
            sent: CalmBytes::new(alloc)?,
        })
    }

    /// Makes the tray, with nothing sent to it.
    fn make(&mut self, name: &str)
        ensures { self.new ≡ record { made = true; name = kept_name name.now; sent = Some [] } }
    {
        self.made = true;
        self.name.keep(name);
        self.sent.clear();
    }
}

/// A desk in memory whose calls never fail. An unknown name holds no bytes.
///
/// It tells the bytes sent to a tray while they are at most 1,048,576, and none of them after that. A
/// name of more than 256 bytes isn't told.
#[derive(Drop)]
pub struct CalmDesk {
    files: Vec<NamedBytes>,
    feeds: Feeds<FeedSlot>,
    report: CalmTray,
    proof: CalmTray,
}

impl Model for CalmDesk {
    ghost use Rattle.hw_desk.specs.Calm.{CalmModel};
    ghost use Rattle.hw_desk.specs.Feeds.{feed_of};
    ghost use Rattle.hw_desk.specs.Places.{map_feeds};

    ghost Value = { CalmModel };

    ghost view = { λ d. record { files = d.files.items; feeds = map_feeds (feed_of d.files.items) d.feeds; report = d.report; proof = d.proof } };
}

impl CalmDesk {
    ghost use Rattle.hw_desk.specs.State.{IsNewDesk};
    ghost use Rattle.hw_desk.specs.Calm.{calm_state, new_calm};

    /// A desk with these files, on which nothing was begun or made. It takes 1,048,576 bytes for each
    /// tray and 256 bytes for each name; of two files of one name the first is read.
    pub fn new(alloc: Global, files: Vec<NamedBytes>) -> Result<CalmDesk, NoMemory>
        ensures fresh { IfOk result (λ desk. IsNewDesk (calm_state desk)) }
        ensures value { IfOk result (λ desk. desk ≡ new_calm files.items) }
    {
        Ok(CalmDesk {
            files,
            feeds: fresh_slots(alloc)?,
            report: CalmTray::new(alloc)?,
            proof: CalmTray::new(alloc)?,
        })
    }

    /// The bytes sent to a tray, while they are told.
    pub fn sent(&self, tray: Tray) -> Option<&[u8]>
        ensures { MatchOption result (((calm_state self.now).trays tray).sent ≡ None) (λ bytes. ((calm_state self.now).trays tray).sent ≡ Some bytes.now) }
    {
        match tray {
            Tray::Report => self.report.sent.kept(),
            Tray::Proof if self.proof.made => self.proof.sent.kept(),
            Tray::Proof => Some(&[]),
        }
    }
}

impl Desk for CalmDesk {
    ghost use Rattle.hw_desk.specs.State.{CanSend, same_tray};
    ghost use Rattle.hw_desk.specs.Calls.{Begins, Reads, Makes, Writes};
    ghost use Rattle.hw_desk.specs.Calm.{calm_state, calm_fresh, calm_bounded, calm_sent};

    ghost state = { calm_state };

    ghost fresh = { calm_fresh };

    ghost bounded = { calm_bounded };

    fn begin(&mut self, feed: Feed, name: &str) -> Result<(), DeskFailed>
        requires fresh { ((calm_state self.old).feeds feed).begun ≡ false }
        ensures begins { Begins feed name.now (calm_state self.old) (calm_state self.new) result }
        ensures named { ((calm_state self.new).feeds feed).name ≡ kept_name name.now }
        ensures trays { (t : Tray) → calm_sent self.new t ≡ calm_sent self.old t }
        ensures ok { IsOk result }
    {
        let file = find(&self.files, name);
        self.feeds.get_mut(feed).open(name, file);
        Ok(())
    }

    fn read(&mut self, feed: Feed, into: &mut [u8]) -> Result<usize, DeskFailed>
        requires begun { ((calm_state self.old).feeds feed).begun ≡ true }
        requires some { 0 < length into.old }
        ensures reads { Reads feed into.new (calm_state self.old) (calm_state self.new) result }
        ensures count { IfOk result (λ n. IfSome ((calm_state self.old).feeds feed).left (λ left. n ≡ min (length into.old) (length left))) }
        ensures trays { (t : Tray) → calm_sent self.new t ≡ calm_sent self.old t }
        ensures ok { IsOk result }
    {
        Ok(take_some(&self.files, self.feeds.get_mut(feed), usize::MAX, into))
    }

    fn make(&mut self, tray: Tray, name: &str) -> Result<(), DeskFailed>
        requires fresh { ((calm_state self.old).trays tray).made ≡ false }
        ensures makes { Makes tray name.now (calm_state self.old) (calm_state self.new) result }
        ensures named { ((calm_state self.new).trays tray).name ≡ kept_name name.now }
        ensures none_sent { calm_sent self.new tray ≡ Some [] }
        ensures others { (t : Tray) → same_tray t tray ≡ false → calm_sent self.new t ≡ calm_sent self.old t }
        ensures ok { IsOk result }
    {
        match tray {
            Tray::Report => self.report.make(name),
            Tray::Proof => self.proof.make(name),
        }
        Ok(())
    }

    fn write(&mut self, tray: Tray, bytes: &[u8]) -> Result<usize, DeskFailed>
        requires made { CanSend tray (calm_state self.old) }
        requires some { 0 < length bytes.now }
        ensures writes { Writes tray bytes.now (calm_state self.old) (calm_state self.new) result }
        ensures all { IfOk result (λ n. n ≡ length bytes.now) }
        ensures sent { calm_sent self.new tray ≡ told_with (calm_sent self.old tray) bytes.now }
        ensures others { (t : Tray) → same_tray t tray ≡ false → calm_sent self.new t ≡ calm_sent self.old t }
        ensures ok { IsOk result }
    {
        match tray {
            Tray::Report => self.report.sent.send(bytes),
            Tray::Proof => self.proof.sent.send(bytes),
        }
        Ok(bytes.len())
    }
}

//! Files in memory, and the feeds that are read from them.

ghost use Rattle.std.specs.Prelude.{◌≡◌, ◌<◌, ◌≤◌, ◌+◌, ◌^◌, ◌++◌, [], IfOk, false, length, min, drop, take, true, None};
ghost use Rattle.hw_desk.specs.Files.{file_named, fresh_slot, left_of};
ghost use Rattle.hw_desk.specs.Places.{everywhere};
ghost use Rattle.hw_desk.specs.Names.{kept_name};

use crate::Feeds;
use crate::name::KeptName;
use hw_model::NoMemory;
use std::alloc::Global;

/// A file in memory.
#[derive(Drop)]
pub struct NamedBytes {
    pub name: String,
    pub bytes: Vec<u8>,
}

/// A feed of a desk in memory: the file that it was begun on, if there is one, and the place in it.
#[derive(Drop)]
pub struct FeedSlot {
    pub begun: bool,
    pub name: KeptName,
    pub file: Option<usize>,
    pub at: usize,
}

impl FeedSlot {
    /// A feed that wasn't begun.
    pub fn new(alloc: Global) -> Result<FeedSlot, NoMemory>
        ensures { IfOk result (λ slot. slot ≡ fresh_slot) }
    {
        Ok(FeedSlot {
            begun: false,
            name: KeptName::new(alloc)?,
            file: None,
            at: 0,
        })
    }

    /// Begins the feed on a file, or on none.
    pub fn open(&mut self, name: &str, file: Option<usize>)
        ensures { self.new ≡ record { begun = true; name = kept_name name.now; file = file; at = 0 } }
    {
        self.begun = true;
        self.name.keep(name);
        self.file = file;
        self.at = 0;
    }
}

/// Feeds that weren't begun.
pub fn fresh_slots(alloc: Global) -> Result<Feeds<FeedSlot>, NoMemory>
    ensures { IfOk result (λ feeds. feeds ≡ everywhere fresh_slot) }
{
    Ok(Feeds {
        flat: FeedSlot::new(alloc)?,
        instance: FeedSlot::new(alloc)?,
        tides: FeedSlot::new(alloc)?,
        certificate: FeedSlot::new(alloc)?,
        plan: FeedSlot::new(alloc)?,
        events: FeedSlot::new(alloc)?,
        clash: FeedSlot::new(alloc)?,
        split: FeedSlot::new(alloc)?,
    })
}

/// The place of the first file of that name.
pub fn find(files: &[NamedBytes], name: &str) -> Option<usize>
    ensures { result ≡ file_named files.now name.now }
{
    files.iter().position(|f| f.name.as_str() == name)
}

/// The bytes from a place on.
fn rest_from(bytes: &[u8], at: usize) -> &[u8]
    ensures rest { result.now ≡ drop at bytes.now }
    ensures fits { 0 < length result.now → at + length result.now < 2 ^ 64 }
{
    if at < bytes.len() { &bytes[at..] } else { &[] }
}

/// What is left of a feed.
fn rest_of<'a>(files: &'a [NamedBytes], slot: &FeedSlot) -> &'a [u8]
    ensures rest { result.now ≡ left_of files.now slot.now }
    ensures fits { 0 < length result.now → slot.now.at + length result.now < 2 ^ 64 }
{
    match slot.file {
        Some(i) => match files.get(i) {
            Some(file) => rest_from(&file.bytes, slot.at),
            None => &[],
        },
        None => &[],
    }
}

/// Moves some of what is left of a feed, at most `most` bytes. Returns how many were moved.
pub fn take_some(files: &[NamedBytes], slot: &mut FeedSlot, most: usize, into: &mut [u8]) -> usize
    requires { 1 ≤ most }
    ensures same { slot.new ≡ record slot.old { at = slot.new.at } }
    ensures count { result ≡ min (length into.old) (min most (length (left_of files.now slot.old))) }
    ensures bound { result ≤ length into.new }
    ensures moved { left_of files.now slot.old ≡ take result into.new ++ left_of files.now slot.new }
    ensures ended { result ≡ 0 → 0 < length into.old → left_of files.now slot.new ≡ [] }
{
    let at = slot.at;
    let rest = rest_of(files, slot);
    let count = into.len().min(most).min(rest.len());
    into[..count].copy_from_slice(&rest[..count]);
    slot.at = at.saturating_add(count);
    count
}

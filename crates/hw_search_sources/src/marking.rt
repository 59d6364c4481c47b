//! Marks of sources: set, cleared and found.

ghost use Rattle.std.specs.Prelude.{◌≡◌, ◌<◌, ◌≤◌, ◌==◌, ℕ, true, false, IfOk, length, replicate, slice_set};
ghost use Rattle.hw_search_sources.specs.Marks.{is_place_marked, AllClear, MarksPlaces, NextMarked, NextWithin};

use hw_model::NoMemory;
use std::alloc::Global;
use std::marker::Model;

/// For each source whether it is marked, seen as the list of the marks.
///
/// The sources are taken in blocks of 64, and a block that isn't set has no marked source, so that
/// the next mark is found without a look at each source: at 40 ships there are some 10,700
/// sources, and 168 blocks. A block that is set may have none.
#[derive(Drop)]
pub struct Marks {
    marks: Vec<bool>,
    blocks: Vec<bool>,
}

impl Model for Marks {
    ghost use Rattle.std.specs.Prelude.{List, Bool};
    ghost use Rattle.hw_search_sources.specs.Marks.{KeepsBlocks};

    ghost Value = { List Bool };

    ghost view = { λ m. m.marks.items };

    ghost invariant = { λ m. KeepsBlocks m.marks.items m.blocks.items };
}

// Clears all marks. It costs a step for each.
fn clear_each(marks: &mut [bool])
    ensures same_length { length marks.new ≡ length marks.old }
    ensures clear { AllClear marks.new }
{
    for mark in marks.iter_mut() {
        *mark = false;
    }
}

// The first marked place from a place on and before another one. A step for each place.
fn next_within(marks: &[bool], from: usize, upto: usize) -> Option<usize>
    requires ascends { from ≤ upto }
    requires within { upto ≤ length marks.now }
    ensures next { NextWithin marks.now from upto result }
{
    for place in from..upto {
        if marks[place] {
            return Some(place);
        }
    }
    None
}

impl Marks {
    /// `count` marks, all set. Their memory is taken here.
    pub fn all(alloc: Global, count: usize) -> Result<Marks, NoMemory>
        ensures value { IfOk result (λ marks. marks ≡ replicate count true) }
    {
        let marks = vec![in alloc; true; count]?;
        let blocks = vec![in alloc; true; count / 64 + 1]?;
        Ok(Marks { marks, blocks })
    }

    /// The number of sources.
    pub fn len(&self) -> usize
        ensures value { result ≡ length self.now }
    {
        self.marks.len()
    }

    /// Marks the source at a place. One step.
    pub fn set(&mut self, place: usize)
        requires inside { place < length self.old }
        ensures value { self.new ≡ slice_set self.old place true }
    {
        self.marks[place] = true;
        self.blocks[place / 64] = true;
    }

    /// Clears the mark of the source at a place. One step: its block stays set.
    pub fn clear(&mut self, place: usize)
        requires inside { place < length self.old }
        ensures value { self.new ≡ slice_set self.old place false }
    {
        self.marks[place] = false;
    }

    /// Marks the sources at these places. A step for each.
    pub fn mark(&mut self, places: &[u32])
        ensures marks { MarksPlaces places.now self.old self.new }
    {
        for place in places {
            let place = *place as usize;
            if place < self.len() {
                self.set(place);
            }
        }
    }

    // Clears all marks. It goes over all marks and all blocks.
    fn clear_all(&mut self)
        ensures same_length { length self.new ≡ length self.old }
        ensures clear { AllClear self.new }
    {
        clear_each(&mut self.marks);
        clear_each(&mut self.blocks);
    }

    /// Marks the source at a place, and no other. It goes over all marks and all blocks.
    pub fn mark_only(&mut self, place: usize)
        requires inside { place < length self.old }
        ensures same_length { length self.new ≡ length self.old }
        ensures marked { (other : ℕ) → other < length self.old → is_place_marked self.new other ≡ (other == place) }
    {
        self.clear_all();
        self.set(place);
    }

    /// The first marked place from a place on. It costs a step for each block, and 64 for one that
    /// is set. A block that it finds without a mark is no longer set.
    pub fn next(&mut self, from: usize) -> Option<usize>
        requires within { from ≤ length self.old }
        ensures next { NextMarked self.old from result }
        ensures same { self.new ≡ self.old }
    {
        let mut at = from;
        while at < self.marks.len() {
            let block = at / 64;
            let end = (block * 64 + 64).min(self.marks.len());
            if self.blocks[block] {
                if let Some(place) = next_within(&self.marks, at, end) {
                    return Some(place);
                }
                if at == block * 64 {
                    self.blocks[block] = false;
                }
            }
            at = end;
        }
        None
    }
}

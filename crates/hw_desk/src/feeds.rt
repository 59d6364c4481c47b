//! A table with one value for each feed.

ghost use Rattle.std.specs.Prelude.{◌≡◌};
ghost use Rattle.std.specs.Borrow.{sem};
ghost use Rattle.hw_desk.specs.Places.{place};
ghost use Rattle.hw_desk.specs.Lending.{LendsPlace};

use crate::Feed;

/// A value for each feed.
#[derive(Drop)]
pub struct Feeds<T> {
    pub flat: T,
    pub instance: T,
    pub tides: T,
    pub certificate: T,
    pub plan: T,
    pub events: T,
    pub clash: T,
    pub split: T,
}

impl<T> Feeds<T> {
    /// The value of a feed.
    pub fn get(&self, feed: Feed) -> &T
        ensures { result.now ≡ place self.now feed }
    {
        match feed {
            Feed::Flat => &self.flat,
            Feed::Instance => &self.instance,
            Feed::Tides => &self.tides,
            Feed::Certificate => &self.certificate,
            Feed::Plan => &self.plan,
            Feed::Events => &self.events,
            Feed::Clash => &self.clash,
            Feed::Split => &self.split,
        }
    }

    /// The value of a feed, for writing.
    pub fn get_mut(&mut self, feed: Feed) -> &mut T
        ensures* writes_back { sem 𝓛 (LendsPlace T.row self.entry feed result) }
        ensures value { result.now ≡ place self.old feed }
    {
        match feed {
            Feed::Flat => &mut self.flat,
            Feed::Instance => &mut self.instance,
            Feed::Tides => &mut self.tides,
            Feed::Certificate => &mut self.certificate,
            Feed::Plan => &mut self.plan,
            Feed::Events => &mut self.events,
            Feed::Clash => &mut self.clash,
            Feed::Split => &mut self.split,
        }
    }
}

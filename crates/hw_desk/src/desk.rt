//! The outside world as a trait: what its calls do, and what they leave when they fail.

ghost use Rattle.std.specs.Prelude.{◌≡◌, ◌<◌, length, false, true};
ghost use Rattle.hw_desk.specs.State.{DeskState, IsFresh, IsBounded, CanSend};
ghost use Rattle.hw_desk.specs.Calls.{Begins, Reads, Makes, Writes};

/// An input of the program.
#[derive(Clone, Copy, Debug, PartialEq, Eq)]
pub enum Feed {
    /// The flat text of a problem.
    Flat,
    /// The instance of a port.
    Instance,
    /// The tide table of a port.
    Tides,
    /// A certificate to be checked.
    Certificate,
    /// A plan that was made before.
    Plan,
    /// What has happened since a plan was made.
    Events,
    /// A clash to be checked, beside the plan that it is about.
    Clash,
    /// A split of a problem into parts.
    Split,
}

/// An output of the program.
#[derive(Clone, Copy, PartialEq, Eq)]
pub enum Tray {
    /// What a run prints. It needs no make.
    Report,
    /// The certificate or the split that a run writes, under the name given at its make.
    Proof,
}

/// A call of a desk failed.
#[derive(Clone, Copy, PartialEq, Eq)]
pub struct DeskFailed;

/// The outside world: files held under names, feeds that are read from them, and trays.
///
/// A call changes nothing but the feed or tray that it names and the count of its kind of faults.
/// After `DeskFailed` that count has risen, or stands at the last `u64`, and no bytes were moved or sent.
pub trait Desk {
    /// What is held, left and sent, as far as it is told, and the two counts of faults.
    ghost state: { Self → DeskState };

    /// Begins a feed, under a name. The feed counts as begun after a failure too.
    fn begin(&mut self, feed: Feed, name: &str) -> Result<(), DeskFailed>
        requires fresh { ((state self.old).feeds feed).begun ≡ false }
        ensures begins { Begins feed name.now (state self.old) (state self.new) result };

    /// Moves some of the bytes that are left into the slice. Returns how many, 0 where none is left.
    fn read(&mut self, feed: Feed, into: &mut [u8]) -> Result<usize, DeskFailed>
        requires begun { ((state self.old).feeds feed).begun ≡ true }
        requires some { 0 < length into.old }
        ensures reads { Reads feed into.new (state self.old) (state self.new) result };

    /// Makes a tray, under a name. The tray counts as made after a failure too.
    fn make(&mut self, tray: Tray, name: &str) -> Result<(), DeskFailed>
        requires fresh { ((state self.old).trays tray).made ≡ false }
        ensures makes { Makes tray name.now (state self.old) (state self.new) result };

    /// Sends some of the bytes, the first ones. Returns how many. `Report` needs no make.
    fn write(&mut self, tray: Tray, bytes: &[u8]) -> Result<usize, DeskFailed>
        requires made { CanSend tray (state self.old) }
        requires some { 0 < length bytes.now }
        ensures writes { Writes tray bytes.now (state self.old) (state self.new) result };

    /// Before its begin a feed has no bytes left, and before its make the proof has no sent bytes.
    ghost fresh: { (desk : Self) → IsFresh (state desk) };

    /// Neither count of faults passes the last `u64`.
    ghost bounded: { (desk : Self) → IsBounded (state desk) };
}

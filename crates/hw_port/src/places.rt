//! The places of an instance, with the numbers and the texts by which they are told.

ghost use Rattle.std.specs.Prelude.{◌≡◌, ◌≤◌, length, slice_get};
ghost use Rattle.hw_port.specs.Places.{number_of_place, text_of, place_at, text_at};

/// A place of an instance, in the order of the table. The items of a list have one place.
#[derive(Clone, Copy)]
pub enum Place {
    Root,
    Version,
    Slots,
    SlotMinutes,
    Waypoints,
    Waypoint,
    WaypointName,
    WaypointDepth,
    Sections,
    Section,
    Separation,
    SeparationRow,
    SeparationGap,
    Turnaround,
    TurnaroundOutgoing,
    TurnaroundIncoming,
    Fleet,
    Ships,
    Ship,
    ShipName,
    ShipDirection,
    ShipClass,
    ShipEarliest,
    ShipLatest,
    ShipTpc,
    ShipLight,
    ShipDeep,
    ShipRoute,
    Pass,
    PassWaypoint,
    PassOffset,
    PassClearance,
    ShipChannel,
    Stretch,
    StretchSection,
    StretchEnter,
    StretchLeave,
    ShipTugs,
    ShipJob,
    Berths,
    BerthPair,
    BerthOutgoing,
    BerthIncoming,
    BerthClear,
    ShipMayStay,
    Heights,
    Closed,
    Closing,
    ClosingFrom,
    ClosingTo,
    WaypointClosed,
    WaypointClosing,
    WaypointClosingFrom,
    WaypointClosingTo,
    ShipClosed,
    ShipClosing,
    ShipClosingFrom,
    ShipClosingTo,
    After,
    AfterPair,
    AfterFirst,
    AfterSecond,
    AfterGap,
    Start,
}

/// The places in the order of their numbers.
const PLACES: [Place; 64] = [
    Place::Root,
    Place::Version,
    Place::Slots,
    Place::SlotMinutes,
    Place::Waypoints,
    Place::Waypoint,
    Place::WaypointName,
    Place::WaypointDepth,
    Place::Sections,
    Place::Section,
    Place::Separation,
    Place::SeparationRow,
    Place::SeparationGap,
    Place::Turnaround,
    Place::TurnaroundOutgoing,
    Place::TurnaroundIncoming,
    Place::Fleet,
    Place::Ships,
    Place::Ship,
    Place::ShipName,
    Place::ShipDirection,
    Place::ShipClass,
    Place::ShipEarliest,
    Place::ShipLatest,
    Place::ShipTpc,
    Place::ShipLight,
    Place::ShipDeep,
    Place::ShipRoute,
    Place::Pass,
    Place::PassWaypoint,
    Place::PassOffset,
    Place::PassClearance,
    Place::ShipChannel,
    Place::Stretch,
    Place::StretchSection,
    Place::StretchEnter,
    Place::StretchLeave,
    Place::ShipTugs,
    Place::ShipJob,
    Place::Berths,
    Place::BerthPair,
    Place::BerthOutgoing,
    Place::BerthIncoming,
    Place::BerthClear,
    Place::ShipMayStay,
    Place::Heights,
    Place::Closed,
    Place::Closing,
    Place::ClosingFrom,
    Place::ClosingTo,
    Place::WaypointClosed,
    Place::WaypointClosing,
    Place::WaypointClosingFrom,
    Place::WaypointClosingTo,
    Place::ShipClosed,
    Place::ShipClosing,
    Place::ShipClosingFrom,
    Place::ShipClosingTo,
    Place::After,
    Place::AfterPair,
    Place::AfterFirst,
    Place::AfterSecond,
    Place::AfterGap,
    Place::Start,
];

impl Place {
    /// The number by which a path tells the place.
    pub fn number(self) -> u32
        ensures { result ≡ number_of_place self }
    {
        self as u32
    }

    /// The place of a number, if there is one.
    pub fn of_number(number: u32) -> Option<Place>
        ensures { result ≡ place_at number }
    {
        place_in(&PLACES, number)
    }

    /// The text of the place: the names of the members on the way, a star for each list item.
    pub fn text(self) -> &'static [u8]
        ensures text { result.now ≡ text_of self }
        ensures short { length result.now ≤ 40 }
    {
        match self {
            Place::Root => b"root",
            Place::Version => b"version",
            Place::Slots => b"slots",
            Place::SlotMinutes => b"slot_minutes",
            Place::Waypoints => b"waypoints",
            Place::Waypoint => b"waypoints.*",
            Place::WaypointName => b"waypoints.*.name",
            Place::WaypointDepth => b"waypoints.*.depth",
            Place::Sections => b"sections",
            Place::Section => b"sections.*",
            Place::Separation => b"separation",
            Place::SeparationRow => b"separation.*",
            Place::SeparationGap => b"separation.*.*",
            Place::Turnaround => b"turnaround",
            Place::TurnaroundOutgoing => b"turnaround.outgoing",
            Place::TurnaroundIncoming => b"turnaround.incoming",
            Place::Fleet => b"fleet",
            Place::Ships => b"ships",
            Place::Ship => b"ships.*",
            Place::ShipName => b"ships.*.name",
            Place::ShipDirection => b"ships.*.direction",
            Place::ShipClass => b"ships.*.class",
            Place::ShipEarliest => b"ships.*.earliest",
            Place::ShipLatest => b"ships.*.latest",
            Place::ShipTpc => b"ships.*.tpc",
            Place::ShipLight => b"ships.*.light",
            Place::ShipDeep => b"ships.*.deep",
            Place::ShipRoute => b"ships.*.route",
            Place::Pass => b"ships.*.route.*",
            Place::PassWaypoint => b"ships.*.route.*.waypoint",
            Place::PassOffset => b"ships.*.route.*.offset",
            Place::PassClearance => b"ships.*.route.*.clearance",
            Place::ShipChannel => b"ships.*.channel",
            Place::Stretch => b"ships.*.channel.*",
            Place::StretchSection => b"ships.*.channel.*.section",
            Place::StretchEnter => b"ships.*.channel.*.enter",
            Place::StretchLeave => b"ships.*.channel.*.leave",
            Place::ShipTugs => b"ships.*.tugs",
            Place::ShipJob => b"ships.*.job",
            Place::Berths => b"berths",
            Place::BerthPair => b"berths.*",
            Place::BerthOutgoing => b"berths.*.outgoing",
            Place::BerthIncoming => b"berths.*.incoming",
            Place::BerthClear => b"berths.*.clear",
            Place::ShipMayStay => b"ships.*.may_stay",
            Place::Heights => b"heights",
            Place::Closed => b"closed",
            Place::Closing => b"closed.*",
            Place::ClosingFrom => b"closed.*.from",
            Place::ClosingTo => b"closed.*.to",
            Place::WaypointClosed => b"waypoints.*.closed",
            Place::WaypointClosing => b"waypoints.*.closed.*",
            Place::WaypointClosingFrom => b"waypoints.*.closed.*.from",
            Place::WaypointClosingTo => b"waypoints.*.closed.*.to",
            Place::ShipClosed => b"ships.*.closed",
            Place::ShipClosing => b"ships.*.closed.*",
            Place::ShipClosingFrom => b"ships.*.closed.*.from",
            Place::ShipClosingTo => b"ships.*.closed.*.to",
            Place::After => b"after",
            Place::AfterPair => b"after.*",
            Place::AfterFirst => b"after.*.first",
            Place::AfterSecond => b"after.*.second",
            Place::AfterGap => b"after.*.gap",
            Place::Start => b"start",
        }
    }
}

/// The place of this number in a list.
fn place_in(places: &[Place], number: u32) -> Option<Place>
    ensures { result ≡ slice_get places.now number }
{
    match places.get(number as usize) {
        Some(place) => Some(*place),
        None => None,
    }
}

/// The text of the place of a number, with its stars; nothing where there is no such place.
pub fn text_at_number(number: u32) -> &'static [u8]
    ensures text { result.now ≡ text_at number }
    ensures short { length result.now ≤ 40 }
{
    match Place::of_number(number) {
        Some(place) => place.text(),
        None => b"",
    }
}

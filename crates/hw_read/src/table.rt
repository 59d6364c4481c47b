//! The table of places: what stands where in an instance.

use hw_port::Place;

/// The kinds of objects.
#[derive(Clone, Copy)]
pub enum Names {
    Port,
    Waypoint,
    Turnaround,
    Ship,
    Pass,
    Stretch,
    Berth,
    After,
    Closing,
}

/// The version of an instance, which its table goes by: in the second and the third ships may stay, and
/// the third has a start, heights, closed slots and ships after others.
#[derive(Clone, Copy)]
pub enum Version {
    First,
    Second,
    Third,
}

/// What a value looks like, with its places.
pub enum Form<'t> {
    /// A whole number.
    Number(Place),
    /// A text.
    Text(Place),
    /// A truth value.
    Truth(Place),
    /// A list of items of one form.
    List(Place, &'t Form<'t>),
    /// An object with these members, the first of which follows.
    Object(Place, Names, &'t Form<'t>),
    /// A member of the object by its name, its form, and the object's further members.
    Member(Place, &'t str, &'t Form<'t>, &'t Form<'t>),
    /// Further members in the second and the third version, and none in the first.
    Stays(&'t Form<'t>),
    /// Further members in the third version, and those in the versions before.
    Later(&'t Form<'t>, &'t Form<'t>),
    /// No further member.
    End,
}

type Entry = Form<'static>;

// A line for each place, in the order of refusals; the last name is that of the next member.
pub const PORT: Entry = Form::Object(Place::Root, Names::Port, &VERSION);

const VERSION: Entry = Form::Member(
    Place::Version,
    "version",
    &Form::Number(Place::Version),
    &STARTS,
);

const STARTS: Entry = Form::Later(&START, &SLOTS);

const START: Entry = Form::Member(Place::Start, "start", &Form::Text(Place::Start), &SLOTS);

const SLOTS: Entry = Form::Member(
    Place::Slots,
    "slots",
    &Form::Number(Place::Slots),
    &SLOT_MINUTES,
);

const SLOT_MINUTES: Entry = Form::Member(
    Place::SlotMinutes,
    "slot_minutes",
    &Form::Number(Place::SlotMinutes),
    &JUDGED,
);

const JUDGED: Entry = Form::Later(&HEIGHTS, &WAYPOINTS);

const HEIGHTS: Entry = Form::Member(
    Place::Heights,
    "heights",
    &Form::Text(Place::Heights),
    &CLOSED,
);

const CLOSED: Entry = Form::Member(
    Place::Closed,
    "closed",
    &Form::List(Place::Closed, &CLOSING),
    &WAYPOINTS,
);

const CLOSING: Entry = Form::Object(Place::Closing, Names::Closing, &CLOSING_FROM);

const CLOSING_FROM: Entry = Form::Member(
    Place::ClosingFrom,
    "from",
    &Form::Number(Place::ClosingFrom),
    &CLOSING_TO,
);

const CLOSING_TO: Entry = Form::Member(
    Place::ClosingTo,
    "to",
    &Form::Number(Place::ClosingTo),
    &Form::End,
);

const WAYPOINTS: Entry = Form::Member(
    Place::Waypoints,
    "waypoints",
    &Form::List(Place::Waypoints, &WAYPOINT),
    &SECTIONS,
);

const WAYPOINT: Entry = Form::Object(Place::Waypoint, Names::Waypoint, &WAYPOINT_NAME);

const WAYPOINT_NAME: Entry = Form::Member(
    Place::WaypointName,
    "name",
    &Form::Text(Place::WaypointName),
    &DEPTH,
);

const DEPTH: Entry = Form::Member(
    Place::WaypointDepth,
    "depth",
    &Form::Number(Place::WaypointDepth),
    &BARS,
);

const BARS: Entry = Form::Later(&WAYPOINT_CLOSED, &Form::End);

const WAYPOINT_CLOSED: Entry = Form::Member(
    Place::WaypointClosed,
    "closed",
    &Form::List(Place::WaypointClosed, &WAYPOINT_CLOSING),
    &Form::End,
);

const WAYPOINT_CLOSING: Entry = Form::Object(
    Place::WaypointClosing,
    Names::Closing,
    &WAYPOINT_CLOSING_FROM,
);

const WAYPOINT_CLOSING_FROM: Entry = Form::Member(
    Place::WaypointClosingFrom,
    "from",
    &Form::Number(Place::WaypointClosingFrom),
    &WAYPOINT_CLOSING_TO,
);

const WAYPOINT_CLOSING_TO: Entry = Form::Member(
    Place::WaypointClosingTo,
    "to",
    &Form::Number(Place::WaypointClosingTo),
    &Form::End,
);

const SECTIONS: Entry = Form::Member(
    Place::Sections,
    "sections",
    &Form::List(Place::Sections, &Form::Text(Place::Section)),
    &SEPARATION,
);

const SEPARATION: Entry = Form::Member(
    Place::Separation,
    "separation",
    &Form::List(Place::Separation, &ROW),
    &TURNAROUND,
);

const ROW: Entry = Form::List(Place::SeparationRow, &Form::Number(Place::SeparationGap));

const TURNAROUND: Entry = Form::Member(Place::Turnaround, "turnaround", &TURNAROUNDS, &FLEET);

const TURNAROUNDS: Entry = Form::Object(Place::Turnaround, Names::Turnaround, &AFTER_OUTGOING);

const AFTER_OUTGOING: Entry = Form::Member(
    Place::TurnaroundOutgoing,
    "outgoing",
    &Form::Number(Place::TurnaroundOutgoing),
    &AFTER_INCOMING,
);

const AFTER_INCOMING: Entry = Form::Member(
    Place::TurnaroundIncoming,
    "incoming",
    &Form::Number(Place::TurnaroundIncoming),
    &Form::End,
);

const FLEET: Entry = Form::Member(Place::Fleet, "fleet", &Form::Number(Place::Fleet), &SHIPS);

const SHIPS: Entry = Form::Member(
    Place::Ships,
    "ships",
    &Form::List(Place::Ships, &SHIP),
    &BERTHS,
);

const SHIP: Entry = Form::Object(Place::Ship, Names::Ship, &SHIP_NAME);

const SHIP_NAME: Entry = Form::Member(
    Place::ShipName,
    "name",
    &Form::Text(Place::ShipName),
    &DIRECTION,
);

const DIRECTION: Entry = Form::Member(
    Place::ShipDirection,
    "direction",
    &Form::Text(Place::ShipDirection),
    &CLASS,
);

const CLASS: Entry = Form::Member(
    Place::ShipClass,
    "class",
    &Form::Number(Place::ShipClass),
    &EARLIEST,
);

const EARLIEST: Entry = Form::Member(
    Place::ShipEarliest,
    "earliest",
    &Form::Number(Place::ShipEarliest),
    &LATEST,
);

const LATEST: Entry = Form::Member(
    Place::ShipLatest,
    "latest",
    &Form::Number(Place::ShipLatest),
    &TPC,
);

const TPC: Entry = Form::Member(Place::ShipTpc, "tpc", &Form::Number(Place::ShipTpc), &LIGHT);

const LIGHT: Entry = Form::Member(
    Place::ShipLight,
    "light",
    &Form::Number(Place::ShipLight),
    &DEEP,
);

const DEEP: Entry = Form::Member(
    Place::ShipDeep,
    "deep",
    &Form::Number(Place::ShipDeep),
    &ROUTE,
);

const ROUTE: Entry = Form::Member(
    Place::ShipRoute,
    "route",
    &Form::List(Place::ShipRoute, &PASS),
    &CHANNEL,
);

const PASS: Entry = Form::Object(Place::Pass, Names::Pass, &PASSED);

const PASSED: Entry = Form::Member(
    Place::PassWaypoint,
    "waypoint",
    &Form::Number(Place::PassWaypoint),
    &OFFSET,
);

const OFFSET: Entry = Form::Member(
    Place::PassOffset,
    "offset",
    &Form::Number(Place::PassOffset),
    &CLEARANCE,
);

const CLEARANCE: Entry = Form::Member(
    Place::PassClearance,
    "clearance",
    &Form::Number(Place::PassClearance),
    &Form::End,
);

const CHANNEL: Entry = Form::Member(
    Place::ShipChannel,
    "channel",
    &Form::List(Place::ShipChannel, &STRETCH),
    &TUGS,
);

const STRETCH: Entry = Form::Object(Place::Stretch, Names::Stretch, &SECTION);

const SECTION: Entry = Form::Member(
    Place::StretchSection,
    "section",
    &Form::Number(Place::StretchSection),
    &ENTER,
);

const ENTER: Entry = Form::Member(
    Place::StretchEnter,
    "enter",
    &Form::Number(Place::StretchEnter),
    &LEAVE,
);

const LEAVE: Entry = Form::Member(
    Place::StretchLeave,
    "leave",
    &Form::Number(Place::StretchLeave),
    &Form::End,
);

const TUGS: Entry = Form::Member(
    Place::ShipTugs,
    "tugs",
    &Form::Number(Place::ShipTugs),
    &JOB,
);

const JOB: Entry = Form::Member(Place::ShipJob, "job", &Form::Number(Place::ShipJob), &STAYS);

const STAYS: Entry = Form::Stays(&MAY_STAY);

const MAY_STAY: Entry = Form::Member(
    Place::ShipMayStay,
    "may_stay",
    &Form::Truth(Place::ShipMayStay),
    &RESTS,
);

const RESTS: Entry = Form::Later(&SHIP_CLOSED, &Form::End);

const SHIP_CLOSED: Entry = Form::Member(
    Place::ShipClosed,
    "closed",
    &Form::List(Place::ShipClosed, &SHIP_CLOSING),
    &Form::End,
);

const SHIP_CLOSING: Entry = Form::Object(Place::ShipClosing, Names::Closing, &SHIP_CLOSING_FROM);

const SHIP_CLOSING_FROM: Entry = Form::Member(
    Place::ShipClosingFrom,
    "from",
    &Form::Number(Place::ShipClosingFrom),
    &SHIP_CLOSING_TO,
);

const SHIP_CLOSING_TO: Entry = Form::Member(
    Place::ShipClosingTo,
    "to",
    &Form::Number(Place::ShipClosingTo),
    &Form::End,
);

const BERTHS: Entry = Form::Member(
    Place::Berths,
    "berths",
    &Form::List(Place::Berths, &BERTH),
    &AFTERS,
);

const BERTH: Entry = Form::Object(Place::BerthPair, Names::Berth, &BERTH_OUTGOING);

const BERTH_OUTGOING: Entry = Form::Member(
    Place::BerthOutgoing,
    "outgoing",
    &Form::Number(Place::BerthOutgoing),
    &BERTH_INCOMING,
);

const BERTH_INCOMING: Entry = Form::Member(
    Place::BerthIncoming,
    "incoming",
    &Form::Number(Place::BerthIncoming),
    &CLEAR,
);

const CLEAR: Entry = Form::Member(
    Place::BerthClear,
    "clear",
    &Form::Number(Place::BerthClear),
    &Form::End,
);

const AFTERS: Entry = Form::Later(&AFTER, &Form::End);

const AFTER: Entry = Form::Member(
    Place::After,
    "after",
    &Form::List(Place::After, &AFTER_PAIR),
    &Form::End,
);

const AFTER_PAIR: Entry = Form::Object(Place::AfterPair, Names::After, &AFTER_FIRST);

const AFTER_FIRST: Entry = Form::Member(
    Place::AfterFirst,
    "first",
    &Form::Number(Place::AfterFirst),
    &AFTER_SECOND,
);

const AFTER_SECOND: Entry = Form::Member(
    Place::AfterSecond,
    "second",
    &Form::Number(Place::AfterSecond),
    &AFTER_GAP,
);

const AFTER_GAP: Entry = Form::Member(
    Place::AfterGap,
    "gap",
    &Form::Number(Place::AfterGap),
    &Form::End,
);

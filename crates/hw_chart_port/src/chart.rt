//! What a picture is drawn from.

ghost use Rattle.std.specs.Prelude.{◌≡◌, ◌≤◌, ◌<◌, ◌≤ℤ◌, pos, length, All, is_some, IfSome, option_map, ◌*◌, ◌+◌, false, slice_index_or};
ghost use Rattle.hw_port.specs.Kept.{PassKept, PortKept, ShipKept};
ghost use Rattle.hw_port_model.specs.Numbers.{horizon_of, whole};
ghost use Rattle.hw_port_model.specs.Drafts.{allowed, sailing as sailing_draft};
ghost use Rattle.hw_draft.specs.Passages.{PassageKept, limiting, passage_of, waypoint_name};
ghost use Rattle.hw_chart.specs.Courses.{SailsBefore};
ghost use Rattle.hw_chart_port.specs.Charts.{cargo_in, course as course_of_ship, draft_in, midnight_of, minutes_to, slot_in_chart as slot_or_0, shown};
ghost use Rattle.hw_chart_port.specs.Moves.{could_move, HasMoves};

use crate::numbers::product;
use crate::span::slot_of;
use hw_chart::{Course, course_at};
use hw_chart_flat::Plan;
use hw_draft::{Passage, natural};
use hw_model::{MOST_SHIPS, MOST_SLOTS, ShipId, Slot};
use hw_port::{Pass, Port, PortParts, Ship};
use hw_tide::Tide;
use std::marker::Model;

/// A port with its tide, a timetable with its moves or none, and how many slots a picture of them shows.
#[derive(Drop)]
pub struct Chart<'p> {
    pub port: &'p Port,
    pub tide: &'p Tide,
    pub plan: Option<&'p Plan>,
    pub span: u32,
}

impl<'p> Model for Chart<'p> {
    ghost use Rattle.std.specs.Prelude.{option_map};
    ghost use Rattle.hw_chart_port.specs.Charts.{ChartParts, IsChart};
    ghost use Rattle.hw_chart_port.specs.Moves.{HasMoves};

    ghost Value = { ChartParts };

    ghost view = { λ c. record { port = c.port.now; tide = c.tide.now; table = option_map (λ plan. plan.now.table) c.plan; span = c.span } };

    ghost invariant = { λ c. IsChart (record { port = c.port.now; tide = c.tide.now; table = option_map (λ plan. plan.now.table) c.plan; span = c.span }) × HasMoves c.port.now c.tide.now (option_map (λ plan. plan.now) c.plan) };
}

impl Chart<'_> {
    /// The parts of the port.
    pub fn parts(&self) -> &PortParts
        ensures parts { result.now ≡ self.now.port }
        ensures kept { PortKept result.now }
        ensures columns { self.now.tide.columns ≡ length result.now.waypoints }
    {
        self.port.parts()
    }

    /// The ships.
    pub fn ships(&self) -> &[Ship]
        ensures value { result.now ≡ self.now.port.ships }
        ensures few { length self.now.port.ships ≤ MOST_SHIPS }
        ensures kept { All (ShipKept self.now.port) result.now }
    {
        &self.parts().ships
    }

    /// The timetable with its moves, if there is one.
    fn plan(&self) -> Option<&Plan>
        ensures table { option_map (λ plan. plan.now.table) result ≡ self.now.table }
        ensures moves { HasMoves self.now.port self.now.tide (option_map (λ plan. plan.now) result) }
    {
        self.plan
    }

    /// The tide.
    pub fn tide(&self) -> &Tide
        ensures { result.now ≡ self.now.tide }
    {
        self.tide
    }

    /// The number of slots that the picture shows.
    pub fn span(&self) -> u32
        ensures value { result ≡ self.now.span }
        ensures some { 0 < result }
        ensures few { result ≤ 1_535 }
    {
        self.span
    }

    /// The number of slots in which ships sail.
    pub fn horizon(&self) -> u32
        ensures value { result ≡ horizon_of self.now.port }
        ensures few { result ≤ MOST_SLOTS }
    {
        natural(self.parts().slots)
    }

    /// The minutes of a slot.
    pub fn slot_minutes(&self) -> u32
        ensures value { result ≡ whole self.now.port.slot_minutes }
        ensures few { result ≤ 1_440 }
    {
        natural(self.parts().slot_minutes)
    }

    /// The minutes from midnight to the beginning of slot 0, where that has a date.
    pub fn midnight(&self) -> u32
        ensures value { result ≡ midnight_of self.now.port.start }
        ensures few { result < 1_440 }
    {
        match &self.parts().start {
            Some(start) => hw_chart_calendar::midnight(&start.items),
            None => 0,
        }
    }

    /// The minutes to the beginning of a slot: from that of slot 0, or from the midnight before it, where that has a date.
    pub fn minutes_to(&self, slot: Slot) -> u64
        ensures { result ≡ minutes_to self.now slot }
    {
        product(slot, self.slot_minutes()) + u64::from(self.midnight())
    }

    /// Whether there is a timetable.
    pub fn has_table(&self) -> bool
        ensures { result ≡ is_some self.now.table }
    {
        self.plan.is_some()
    }

    /// The slots of the timetable, if there is one.
    pub fn table(&self) -> Option<&[Slot]>
        ensures { option_map (λ table. table.now) result ≡ self.now.table }
    {
        match self.plan {
            Some(plan) => Some(plan.table().as_slice()),
            None => None,
        }
    }

    /// Whether a ship alone could sail in a slot; never where there is no timetable.
    pub fn is_open(&self, ship: ShipId, slot: Slot) -> bool
        requires ship_in { ship < length self.now.port.ships }
        requires slot_in { slot < horizon_of self.now.port }
        ensures { result ≡ could_move self.now.port self.now.tide self.now.table ship slot }
    {
        let _few = self.parts();
        match self.plan() {
            Some(plan) => plan.is_move(ship, slot),
            None => false,
        }
    }

    /// The slot that the timetable gives a ship, 0 where there is none.
    pub fn slot_at(&self, ship: ShipId) -> Slot
        ensures { result ≡ slot_or_0 self.now ship }
    {
        slot_of(self.plan, ship).unwrap_or(0)
    }

    /// What the timetable says of a ship.
    pub fn course(&self, ship: ShipId) -> Course
        ensures value { result ≡ course_of_ship self.now ship }
        ensures before { SailsBefore (horizon_of self.now.port) result }
    {
        course_at(slot_of(self.plan, ship), self.horizon())
    }

    /// The draft at which a ship sails in a slot, or none where it may not.
    pub fn sailing(&self, ship: ShipId, slot: Slot) -> Option<i64>
        requires ship_in { ship < length self.now.port.ships }
        requires slot_in { slot < horizon_of self.now.port }
        ensures value { result ≡ sailing_draft self.now.port self.now.tide ship slot }
        ensures least { IfSome result (λ draft. pos 0 ≤ℤ draft) }
        ensures most { IfSome result (λ draft. draft ≤ℤ pos 10_000) }
    {
        let port = self.port;
        let _kept = port.parts();
        hw_draft::sailing(port, self.tide, ship, slot)
    }

    /// The draft at which a ship sails in a slot, 0 where it may not.
    pub fn draft(&self, ship: ShipId, slot: Slot) -> u32
        requires ship_in { ship < length self.now.port.ships }
        requires slot_in { slot < horizon_of self.now.port }
        ensures { result ≡ draft_in self.now ship slot }
    {
        match self.sailing(ship, slot) {
            Some(draft) => natural(draft),
            None => 0,
        }
    }

    /// The draft that a slot allows a ship, or none where it makes a pass outside the tide.
    pub fn allowed(&self, ship: ShipId, slot: Slot) -> Option<i64>
        requires ship_in { ship < length self.now.port.ships }
        requires slot_in { slot < horizon_of self.now.port }
        ensures { result ≡ allowed self.now.port self.now.tide ship slot }
    {
        hw_draft::draft(self.port, self.tide, ship, slot)
    }

    /// The cargo of a ship in a slot, 0 where it may not sail.
    pub fn cargo(&self, ship: ShipId, slot: Slot) -> u64
        requires ship_in { ship < length self.now.port.ships }
        requires slot_in { slot < horizon_of self.now.port }
        ensures { result ≡ cargo_in self.now ship slot }
    {
        hw_draft::value(self.port, self.tide, ship, slot).unwrap_or(0)
    }

    /// The pass that limits the draft of a ship in a slot, where its draft is known.
    pub fn limit(&self, ship: ShipId, slot: Slot) -> Option<Passage>
        requires ship_in { ship < length self.now.port.ships }
        requires slot_in { slot < horizon_of self.now.port }
        ensures value { result ≡ limiting self.now.port self.now.tide ship slot }
        ensures kept { IfSome result PassageKept }
    {
        hw_draft::limiting(self.port, self.tide, ship, slot)
    }

    /// A pass of a ship that sails in a slot.
    pub fn passage(&self, slot: Slot, pass: &Pass) -> Passage
        requires slot { slot < MOST_SLOTS }
        requires pass { PassKept (pos (length self.now.port.waypoints)) pass.now }
        ensures value { result ≡ passage_of self.now.port self.now.tide slot pass.now }
        ensures kept { PassageKept result }
    {
        hw_draft::passage_of(self.parts(), self.tide, slot, pass)
    }

    /// The name of a waypoint.
    pub fn waypoint(&self, place: u32) -> &[u8]
        ensures { result.now ≡ waypoint_name self.now.port place }
    {
        hw_draft::waypoint_name(self.parts(), place)
    }

    /// The slots of the tide that the picture shows.
    pub fn shown(&self) -> u32
        ensures value { result ≡ shown self.now }
        ensures inside { result ≤ self.now.tide.rows }
        ensures within { result ≤ self.now.span }
    {
        let tide = self.tide;
        self.span.min(tide.rows)
    }
}

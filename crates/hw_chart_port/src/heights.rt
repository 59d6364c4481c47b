//! The least and the greatest height of a tide.

ghost use Rattle.std.specs.Prelude.{◌≡◌, ◌≤◌, ◌<◌};
ghost use Rattle.hw_chart_port.specs.Strips.{greatest_of, height_in, heights_of, least_height, listed_height};

use hw_tide::Tide;

/// The least and the greatest of some heights, in centimetres.
#[derive(Clone, Copy)]
pub struct Heights {
    pub low: i32,
    pub high: i32,
}

/// The heights of a whole tide.
#[tactic(auto, using(crate::proofs::Extremes::least_next, crate::proofs::Extremes::greatest_next))]
pub fn heights_of(tide: &Tide) -> Heights
    ensures { result ≡ heights_of tide.now }
{
    let first = tide.heights.first().copied().unwrap_or(0);
    let mut low = first;
    let mut high = first;
    for height in &tide.heights {
        low = low.min(*height);
        high = high.max(*height);
    }
    Heights { low, high }
}

/// The heights at a waypoint, in the first few slots.
#[tactic(auto, using(crate::proofs::Extremes::least_next, crate::proofs::Extremes::greatest_next))]
pub fn heights_at(tide: &Tide, place: u32, slots: u32) -> Heights
    requires place { place < tide.now.columns }
    requires slots { slots ≤ tide.now.rows }
    ensures low { result.low ≡ least_height (height_in tide.now place) slots }
    ensures high { result.high ≡ greatest_of (height_in tide.now place) slots }
{
    let _rows = tide.rows;
    let first = tide.height(0, place);
    let mut low = first;
    let mut high = first;
    for slot in 0..slots {
        let height = tide.height(slot, place);
        low = low.min(height);
        high = high.max(height);
    }
    Heights { low, high }
}

//! The laws of tolls and prices, each a function without a body.

ghost use Rattle.hw_price_laws.specs.Laws.{TollJudged, TollKept, TollUsage, TeamsAreTolls, SoundPrices, SoundBound, RisingPrices, OnlyRanges, PricesWithin, WiderPrices, WithoutDues, PricesComputed, BalanceChanged, MoreTolls};
ghost use Rattle.hw_price_laws.specs.Rows.{PriceRows, TollRows};

/// A permitted timetable takes of a toll at most its capacity.
pub fn toll_kept()
    ensures { TollKept }
{}

/// The test of tolls is true exactly of those of the problem.
pub fn toll_judged()
    ensures { TollJudged }
{}

/// What a timetable takes of a toll: of narrows the blocks that hold their ships' slots, of tugs
/// the weights of the jobs that hold theirs.
pub fn toll_usage()
    ensures { TollUsage }
{}

/// The whole teams of this many tugs that the jobs hold in a slot are at most those of the slot's
/// fleet. With teams of one tug that is the rule itself.
pub fn teams_are_tolls()
    ensures { TeamsAreTolls }
{}

/// Inside a room that prices refute a permitted timetable carries at most the best cargo, and
/// without a best there is none.
pub fn sound_prices()
    ensures { SoundPrices }
{}

/// Where prices bound the whole problem, no permitted timetable carries more than the bound.
pub fn sound_bound()
    ensures { SoundBound }
{}

/// What prices refute under a best they refute under a better one.
pub fn rising_prices()
    ensures { RisingPrices }
{}

/// Prices refute rooms with the same ranges alike, whatever their orders.
pub fn only_ranges()
    ensures { OnlyRanges }
{}

/// What prices refute stays refuted with narrower ranges.
pub fn prices_within()
    ensures { PricesWithin }
{}

/// A room whose ranges add only slots that earn no more than one of the narrower room's is refuted
/// with it.
pub fn wider_prices()
    ensures { WiderPrices }
{}

/// Without dues, and with a scale from 1 on, prices refute what the goal or a window refutes.
pub fn without_dues()
    ensures { WithoutDues }
{}

/// The test by the ships' best balances is true exactly where the prices refute the room.
pub fn prices_computed()
    ensures { PricesComputed }
{}

/// Where one range is set, the balances together change by that ship's best balance alone.
pub fn balance_changed()
    ensures { BalanceChanged }
{}

/// Worked rows: what timetables of a small problem take, and what prices refute there.
pub fn price_rows()
    ensures { PriceRows }
{}

/// Worked rows: what is a toll of small problems and what isn't.
pub fn toll_rows()
    ensures { TollRows }
{}

/// Tolls added after those which a tariff names make no difference to it.
pub fn more_tolls()
    ensures { MoreTolls }
{}

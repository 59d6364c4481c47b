//! The laws of a search and its lines, each a function without a body.

ghost use Rattle.hw_search_laws.specs.Limits.{LimitsAre};
ghost use Rattle.hw_search_laws.specs.Laws.{
  NewSearch,
  ReasonLine,
  ConflictLine,
  TableLine,
  PointTable,
  DeleteLine,
  FitKept,
  SearchKept,
  ReasonRises,
  LemmaTurn,
  LastTurn,
  EndMeans,
  StopKept,
  LiveBound,
  TurnLive,
  LiveThroughout,
  PartWritten,
  FewWritten,
  FewNew,
  FewStored,
  FewNumbers,
  FewRestarts,
  BranchOpen,
  FirstLubys,
  LubyRule,
  SolvedSound,
  TollLine,
  TariffLine,
  BoundLine,
  PricedLine,
  PricesTrue,
  ReachedShown,
  LastLine,
  HeedsOn,
  HeedsOne,
  ProvingMeets,
  PlainTurn,
};
ghost use Rattle.hw_search_laws.specs.Starting.{SourcesOnce};

/// A new search fits a log without lines.
pub fn new_search()
    ensures { NewSearch }
{}

/// The line of a reason that a source gave is valid and keeps the fit.
pub fn reason_line()
    ensures { ReasonLine }
{}

/// The line of a conflict that a source or prices gave is valid.
pub fn conflict_line()
    ensures { ConflictLine }
{}

/// A permitted timetable that beats the best is valid and keeps the fit.
pub fn table_line()
    ensures { TableLine }
{}

/// The timetable of a quiet point room is permitted and beats the best.
pub fn point_table()
    ensures { PointTable }
{}

/// One deletion makes the fit exact.
pub fn delete_line()
    ensures { DeleteLine }
{}

/// Implied literals, decisions and going back keep the fit.
pub fn fit_kept()
    ensures { FitKept }
{}

/// Implied literals, decisions and a better timetable keep what the type of a search keeps.
pub fn search_kept()
    ensures { SearchKept }
{}

/// A reason stays one under a better best.
pub fn reason_rises()
    ensures { ReasonRises }
{}

/// What a turn that found a lemma writes is valid, lean and new, and fits the search after it.
pub fn lemma_turn()
    ensures { LemmaTurn }
{}

/// A lemma without literals is valid and ends the certificate.
pub fn last_turn()
    ensures { LastTurn }
{}

/// Where a turn ended, nothing permitted beats the best.
pub fn end_means()
    ensures { EndMeans }
{}

/// A search that went back, or stopped, keeps what its type keeps.
pub fn stop_kept()
    ensures { StopKept }
{}

/// Few clauses are live.
pub fn live_bound()
    ensures { LiveBound }
{}

/// Few clauses are live after each line of a turn.
pub fn turn_live()
    ensures { TurnLive }
{}

/// Few clauses are live after each line of lines followed by those of a turn.
pub fn live_throughout()
    ensures { LiveThroughout }
{}

/// The first lines of what is written well are written well.
pub fn part_written()
    ensures { PartWritten }
{}

/// Few reasons are written, and a trail has at most 21,260 events.
pub fn few_written()
    ensures { FewWritten }
{}

/// New lemmas are at most as many as rooms.
pub fn few_new()
    ensures { FewNew }
{}

/// Stored lemmas are at most as many as rooms.
pub fn few_stored()
    ensures { FewStored }
{}

/// A turn has numbers left for its lines.
pub fn few_numbers()
    ensures { FewNumbers }
{}

/// A search has numbers left for its restarts.
pub fn few_restarts()
    ensures { FewRestarts }
{}

/// The literal of the branching rule is open.
pub fn branch_open()
    ensures { BranchOpen }
{}

/// The first restart numbers.
pub fn first_lubys()
    ensures { FirstLubys }
{}

/// The rule of restart numbers.
pub fn luby_rule()
    ensures { LubyRule }
{}

/// What an answer of solving means.
pub fn solved_sound()
    ensures { SolvedSound }
{}

/// In the list of a problem's sources each stands once.
pub fn sources_once()
    ensures { SourcesOnce }
{}

/// The line of a toll of the problem is valid and keeps the fit.
pub fn toll_line()
    ensures { TollLine }
{}

/// The line of a tariff on declared tolls is valid and keeps the fit.
pub fn tariff_line()
    ensures { TariffLine }
{}

/// The line of a lower bound of the whole problem is valid and keeps the fit.
pub fn bound_line()
    ensures { BoundLine }
{}

/// A literal that a clause of prices implies leaves a search, and the clause's line is valid and keeps
/// the fit.
pub fn priced_line()
    ensures { PricedLine }
{}

/// What the prices in force show is true of each permitted timetable that beats the best.
pub fn prices_true()
    ensures { PricesTrue }
{}

/// Where the best reaches the last bound, the tariff that shows the bound leaves nothing.
pub fn reached_shown()
    ensures { ReachedShown }
{}

/// What the prices in force leave nothing of is closed by a line without literals.
pub fn last_line()
    ensures { LastLine }
{}

/// Advice that is heeded in parts is heeded.
pub fn heeds_on()
    ensures { HeedsOn }
{}

/// One line of advice that a search takes is heeded.
pub fn heeds_one()
    ensures { HeedsOne }
{}

/// A solution with advice goes on through turns and bounds, and its answers meet what they must.
pub fn proving_meets()
    ensures { ProvingMeets }
{}

/// Where no prices are in force a turn writes nothing of tolls or prices.
pub fn plain_turn()
    ensures { PlainTurn }
{}

/// Each limit of a problem, of tolls and prices, of a certificate and of a search is its number.
pub fn limits_are()
    ensures { LimitsAre }
{}

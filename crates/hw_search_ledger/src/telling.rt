//! The lines that declare a toll, put a tariff in force and tell a bound, handed to a log.

ghost use Rattle.std.specs.Prelude.{◌≡◌, ◌∷◌, [], IfErr, OnOk};
ghost use Rattle.hw_cert_lines.specs.declared.line.Line.TheVariants as lines;
ghost use Rattle.hw_cert.specs.Logs.{IsWhole};
ghost use Rattle.hw_search_ledger.specs.Handing.{StopsWithin, TakesAll};

use hw_cert::{Line, Log, LogStop};
use hw_price_laws::{Tariff, Toll};
use std::alloc::Global;

/// Hands the log the line that declares a toll. It copies the toll's list.
pub fn hand_toll<L: Log>(alloc: Global, toll: &Toll, log: &mut L) -> Result<(), LogStop>
    requires whole { IsWhole (L.state log.old) }
    ensures takes { OnOk result (TakesAll (lines.Toll toll.now ∷ []) (L.state log.old) (L.state log.new)) }
    ensures stops { IfErr result (λ stop. StopsWithin stop (lines.Toll toll.now ∷ []) 0 (L.state log.old) (L.state log.new)) }
    ensures same_reference { L.anchor log.new ≡ L.anchor log.old }
{
    let toll = toll.copy(alloc)?;
    let line = Line::Toll { toll };
    log.line(&line)
}

/// Hands the log the line that puts a tariff on declared tolls in force. It copies the dues.
pub fn hand_tariff<L: Log>(alloc: Global, tariff: &Tariff, log: &mut L) -> Result<(), LogStop>
    requires whole { IsWhole (L.state log.old) }
    ensures takes { OnOk result (TakesAll (lines.Tariff tariff.now ∷ []) (L.state log.old) (L.state log.new)) }
    ensures stops { IfErr result (λ stop. StopsWithin stop (lines.Tariff tariff.now ∷ []) 0 (L.state log.old) (L.state log.new)) }
    ensures same_reference { L.anchor log.new ≡ L.anchor log.old }
{
    let tariff = tariff.copy(alloc)?;
    let line = Line::Tariff { tariff };
    log.line(&line)
}

/// Hands the log the line of a bound. It takes no memory.
pub fn hand_bound<L: Log>(bound: u64, log: &mut L) -> Result<(), LogStop>
    requires whole { IsWhole (L.state log.old) }
    ensures takes { OnOk result (TakesAll (lines.Bound bound ∷ []) (L.state log.old) (L.state log.new)) }
    ensures stops { IfErr result (λ stop. StopsWithin stop (lines.Bound bound ∷ []) 0 (L.state log.old) (L.state log.new)) }
    ensures same_reference { L.anchor log.new ≡ L.anchor log.old }
{
    let line = Line::Bound { bound };
    log.line(&line)
}

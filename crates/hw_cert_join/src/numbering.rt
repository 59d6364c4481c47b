//! Lines of one certificate numbered among those of others.

ghost use Rattle.std.specs.Prelude.{◌≡◌, ◌&&◌, IfOk, IfSome, map};
ghost use Rattle.hw_cert.specs.Fits.{ascends, prices_small};
ghost use Rattle.hw_cert_join.specs.Numbering.{IsAnyTariff};

use hw_cert::{are_cheap, tolls_ascend};
use hw_cert_course::{IN_PLACE, Raise};
use hw_cert_lines::Line;
use hw_flat::NoMemory;
use hw_price_laws::{Due, Dues, Tariff, Toll};
use std::alloc::Global;

/// A toll that was declared.
#[derive(Clone, Copy)]
pub struct Declared {
    /// The place of its line.
    pub line: usize,
    /// The number of the last certificate that uses it, from 1.
    pub user: usize,
}

/// How the lines of the certificate at hand are numbered among those that were joined.
#[derive(Drop)]
pub struct Numbering {
    /// The tolls that were declared, in order.
    pub declared: Vec<Declared>,
    /// The number of the certificate, from 1.
    pub certificate: usize,
    /// By how much the numbers of its clauses are raised.
    pub by: Raise,
    /// The joined numbers of its tolls, in order.
    pub tolls: Vec<u32>,
}

impl Numbering {
    /// Before any certificate. It takes no memory.
    pub(crate) fn none(alloc: Global) -> Numbering {
        Numbering {
            declared: Vec::new(alloc),
            certificate: 0,
            by: IN_PLACE,
            tolls: Vec::new(alloc),
        }
    }

    /// Turns to the next certificate, whose lines stand after this many clause lines.
    pub(crate) fn turn(&mut self, alloc: Global, clauses: u32) {
        self.certificate = self.certificate.saturating_add(1);
        self.by = Raise { clauses, tolls: 0 };
        self.tolls = Vec::new(alloc);
    }

    /// The place, among the tolls that were declared by these lines, of one that equals this toll and that
    /// the certificate doesn't use yet.
    pub(crate) fn known(&self, lines: &[Line], toll: &Toll) -> Option<usize> {
        for (place, one) in self.declared.iter().enumerate() {
            if one.user != self.certificate && declares(lines, one.line, toll) {
                return Some(place);
            }
        }
        None
    }

    /// Names the certificate's next toll by the number of the one that was declared at this place.
    pub(crate) fn name_known(&mut self, place: usize) -> Result<(), NoMemory> {
        self.tolls.push(number_of(place.saturating_add(1)))?;
        if let Some(one) = self.declared.get_mut(place) {
            one.user = self.certificate;
        }
        Ok(())
    }

    /// Names the certificate's next toll by the next number, as the line at this place declares it.
    pub(crate) fn name_next(&mut self, line: usize) -> Result<(), NoMemory> {
        self.declared.push(Declared {
            line,
            user: self.certificate,
        })?;
        self.tolls.push(number_of(self.declared.len()))?;
        Ok(())
    }
}

/// Whether the line at this place declares an equal toll.
fn declares(lines: &[Line], place: usize, toll: &Toll) -> bool {
    match lines.get(place) {
        Some(Line::Toll { toll: other }) => other.is_same(toll),
        _ => false,
    }
}

/// A count as a number in a line, or the greatest one.
fn number_of(count: usize) -> u32 {
    u32::try_from(count).unwrap_or(u32::MAX)
}

/// The joined number of a certificate's toll, by the joined numbers of its tolls in order; none where the
/// certificate doesn't declare the toll.
fn joined_number(numbers: &[u32], toll: u32) -> Option<u32> {
    if toll == 0 {
        return None;
    }
    match numbers.get((toll - 1) as usize) {
        Some(number) => Some(*number),
        None => None,
    }
}

/// The tariff on the joined tolls, which its prices ascend by; none where two of them are one, or a
/// number is above its limit.
pub(crate) fn joined_tariff(
    alloc: Global,
    tariff: &Tariff,
    numbers: &[u32],
) -> Result<Option<Line>, NoMemory>
    ensures fits { IfOk result (λ found. IfSome found IsAnyTariff) }
{
    let mut items = Vec::with_capacity(alloc, tariff.dues.items.len())?;
    for one in &tariff.dues.items {
        // The checker refuses a tariff on a toll that isn't declared: no toll has the greatest number.
        items.push(Due {
            toll: joined_number(numbers, one.toll).unwrap_or(u32::MAX),
            price: one.price,
        })?;
    }
    items.sort_by_key(|one| one.toll)?;
    if !is_tariff(tariff.scale, &items) {
        return Ok(None);
    }
    Ok(Some(Line::Tariff {
        tariff: Tariff {
            scale: tariff.scale,
            dues: Dues { items },
        },
    }))
}

/// Whether scale and prices are within their limits, and the numbers of the tolls ascend from 1 on.
fn is_tariff(scale: u32, dues: &[Due]) -> bool
    ensures { result ≡ (prices_small scale dues.now && ascends 0 (map (λ one. one.toll) dues.now)) }
{
    are_cheap(scale, dues) && tolls_ascend(dues)
}

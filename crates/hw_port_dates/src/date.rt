//! Dates: the one that stands some days after another, and the number of a day.

ghost use Rattle.std.specs.Prelude.{◌≡◌, ◌≤◌, ◌<◌, ◌+◌, ◌*◌, ◌-◌};
ghost use Rattle.hw_port.specs.Starts.{days_of_month as month_days};
ghost use Rattle.hw_port_dates.specs.Dates.{IsDate, day_number, days_after, days_of_months as first_months, days_of_year as year_days, days_of_years as first_years, first_of_next};

use hw_port::days_of_month;

/// A day of the calendar, as 2027-03-27. Months and days are counted from 1.
#[derive(Clone, Copy)]
pub struct Date {
    pub year: u32,
    pub month: u32,
    pub day: u32,
}

/// The days of the first months of a year.
#[tactic(auto, using(crate::proofs::Days::no_months, crate::proofs::Days::months_on))]
fn days_of_months(year: u32, count: u32) -> u32
    requires { count ≤ 12 }
    ensures value { result ≡ first_months year count }
    ensures few { result ≤ 31 * count }
{
    let mut days: u32 = 0;
    for month in 0..count {
        days += days_of_month(year, month + 1);
    }
    days
}

/// The days of the years from 1970 to the one before this.
#[tactic(auto, using(crate::proofs::Days::no_years, crate::proofs::Days::years_on))]
fn days_of_years(year: u32) -> u64
    requires { 1970 ≤ year }
    ensures value { result ≡ first_years (year - 1970) }
    ensures few { result ≤ 372 * (year - 1970) }
{
    let mut days: u64 = 0;
    for past in 0..year - 1970 {
        days += u64::from(days_of_months(1970 + past, 12));
    }
    days
}

/// The days from 1970-01-01 to a date.
pub fn day_number(date: Date) -> u64
    requires { IsDate date }
    ensures { result ≡ day_number date }
{
    let months = days_of_months(date.year, date.month - 1);
    days_of_years(date.year) + u64::from(months) + u64::from(date.day - 1)
}

/// How many days of its month come after a date.
fn left_of_month(date: Date) -> u32
    requires { IsDate date }
    ensures { date.day + result ≡ month_days date.year date.month }
{
    days_of_month(date.year, date.month) - date.day
}

/// The first day of the next month.
fn next_month(date: Date) -> Date
    requires month { date.month ≤ 12 }
    requires year { date.year ≤ 4_000_000 }
    ensures { result ≡ first_of_next date }
{
    if date.month < 12 {
        Date {
            year: date.year,
            month: date.month + 1,
            day: 1,
        }
    } else {
        Date {
            year: date.year + 1,
            month: 1,
            day: 1,
        }
    }
}

/// The date some days after another, month by month.
#[tactic(auto, using(crate::proofs::Days::walks, crate::proofs::Days::month_kept, crate::proofs::Days::year_on))]
pub fn days_after(days: u32, date: Date) -> Date
    requires kept { IsDate date }
    requires year { date.year ≤ 300_000 }
    requires few { days ≤ 3_000_000 }
    ensures value { result ≡ days_after days date }
    ensures kept { IsDate result }
{
    let mut place = date;
    let mut rest = days;
    while rest > left_of_month(place) {
        rest -= left_of_month(place) + 1;
        place = next_month(place);
    }
    Date {
        year: place.year,
        month: place.month,
        day: place.day + rest,
    }
}

//! The day: its parts, and its number.

ghost use Rattle.std.specs.Prelude.{◌≡◌, ◌↔◌, ◌+ℤ◌, pos, IsSome, IfSome};
ghost use Rattle.pay_dates.specs.Days.{IsDay, IsDayOf, IsNumberOfRange, day_number};

use jiff::ToSpan;
use jiff::civil::Date;
use std::marker::Model;

/// A day of the calendar from 1900-01-01 to 2199-12-31, in no time zone.
///
/// The calendar is the proleptic Gregorian one, as in ISO 8601. Days compare by their numbers, so the earlier of two
/// is the smaller.
#[derive(Clone, Copy, PartialEq, Eq, PartialOrd, Ord, Debug)]
pub struct Day {
    date: Date,
}

impl Model for Day {
    ghost use Rattle.pay_dates.specs.Days.{Date as Plain, IsDay};

    ghost Value = { Plain };

    ghost view = { λ a. a.date };

    ghost invariant = { λ a. IsDay a.date };

    ghost inverse = { λ d. record { date = d } };
}

impl Day {
    /// The day with this year, month (from 1) and day of the month (from 1).
    ///
    /// `None` exactly where the calendar has no such day, or where its year is not from 1900 to 2199.
    pub fn new(year: u16, month: u8, day: u8) -> Option<Day>
        ensures some { IsSome result ↔ IsDayOf year month day }
        ensures parts { IfSome result (λ d. (d.year ≡ pos year) × (d.month ≡ month) × (d.day ≡ day)) }
    {
        if year < 1900 || year > 2199 || month > 12 || day > 31 {
            return None;
        }
        let date = Date::new(year as i16, month as i8, day as i8).ok()?;
        Some(Day { date })
    }

    /// The year, from 1900 to 2199.
    pub fn year(self) -> u16
        ensures year { pos result ≡ self.year }
        ensures in_range { IsDay self }
    {
        self.date.year() as u16
    }

    /// The month, from 1 to 12.
    pub fn month(self) -> u8
        ensures { result ≡ self.month }
    {
        self.date.month() as u8
    }

    /// The day of the month, from 1 to 31.
    pub fn day(self) -> u8
        ensures { result ≡ self.day }
    {
        self.date.day() as u8
    }

    /// The number of the day: days since 1970-01-01, negative before it; from -25,567 (1900-01-01) to 84,005
    /// (2199-12-31).
    pub fn number(self) -> i32
        ensures number { result ≡ day_number self }
        ensures in_range { IsDay self }
        ensures bounds { IsNumberOfRange result }
    {
        self.date.to_plain().to_unix_epoch_day()
    }

    /// The date of `jiff`.
    pub(crate) fn date(self) -> Date
        ensures date { result ≡ self }
        ensures in_range { IsDay self }
    {
        self.date
    }

    /// The day that a date of `jiff` is.
    pub(crate) fn from_date(date: Date) -> Day
        requires { IsDay date }
        ensures { result ≡ date }
    {
        Day { date }
    }

    /// The day so many days later, or earlier where `days` is negative.
    pub(crate) fn shifted(self, days: i64) -> Day
        requires { IsNumberOfRange (day_number self +ℤ days) }
        ensures number { day_number result ≡ day_number self +ℤ days }
        ensures in_range { IsDay result }
    {
        Day {
            date: self.date + days.days(),
        }
    }
}

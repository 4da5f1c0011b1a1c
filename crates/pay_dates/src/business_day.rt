//! Business-day conventions: where a rule moves a day that falls on a weekend.

ghost use Rattle.std.specs.Prelude.{◌≡◌, ◌+ℤ◌, pos};
ghost use Rattle.jiff.specs.Words.{monday_zero};
ghost use Rattle.pay_dates.specs.Days.{IsDay, day_number};
ghost use Rattle.pay_dates.specs.Rolls.{days_to_friday, days_to_monday, moved};

use crate::{Day, Rule};
use jiff::civil::{Date, Weekday};

/// Days from a Saturday or a Sunday to the next Monday; 0 on every other day of the week.
fn days_to_monday(weekday: Weekday) -> i64
    ensures { result ≡ pos (days_to_monday (monday_zero weekday)) }
{
    match weekday {
        Weekday::Saturday => 2,
        Weekday::Sunday => 1,
        _ => 0,
    }
}

/// Days from a Saturday or a Sunday back to the Friday before; 0 on every other day of the week.
fn days_to_friday(weekday: Weekday) -> i64
    ensures { result ≡ pos (days_to_friday (monday_zero weekday)) }
{
    match weekday {
        Weekday::Saturday => 1,
        Weekday::Sunday => 2,
        _ => 0,
    }
}

/// Days from a date to where a rule moves it, negative where that is before the date.
fn shift_of(date: Date, rule: Rule) -> i64
    ensures { day_number date +ℤ result ≡ moved rule date }
{
    let weekday = date.weekday();
    let forward = days_to_monday(weekday);
    let back = -days_to_friday(weekday);
    match rule {
        Rule::Stay => 0,
        Rule::Following => forward,
        Rule::Preceding => back,
        Rule::Modified => {
            if date.day() as i64 + forward <= date.days_in_month() as i64 {
                forward
            } else {
                back
            }
        }
    }
}

/// The day that a rule moves `day` to: the business-day conventions following, preceding and modified following, whose
/// business days are Monday to Friday.
pub(crate) fn adjusted(day: Day, rule: Rule) -> Day
    ensures moved { day_number result ≡ moved rule day }
    ensures in_range { IsDay day × IsDay result }
{
    day.shifted(shift_of(day.date(), rule))
}

//! The rolls of a schedule: the dates that a step gives from a first day to a last one, moved off weekends by a rule.

ghost use Rattle.std.specs.Prelude.{◌≡◌, ◌*◌, ◌≤◌, pos, IfOk, IfErr, length};
ghost use Rattle.jiff_core.specs.Span.{IsOnly};
ghost use Rattle.pay_dates.specs.Days.{IsDay, day_number};
ghost use Rattle.pay_dates.specs.Rolls.{IsRollCause, IsSchedule, is_given, rolls_of, unadjusted, units_after};
ghost use Rattle.pay_dates.specs.Steps.{IsStep, time_unit};

use crate::Day;
use crate::business_day::adjusted;
use jiff::civil::Date;
use jiff::{Span, ToSpan};
use std::alloc::{AllocError, AllocFailed, Global};

/// The unit of a schedule's step.
#[derive(Clone, Copy, PartialEq, Eq, Debug)]
pub enum Unit {
    /// Days.
    Days,
    /// Weeks of seven days.
    Weeks,
    /// Months of the calendar.
    Months,
    /// Years of the calendar.
    Years,
}

/// The business-day convention of a schedule: where a date on a Saturday or a Sunday moves.
#[derive(Clone, Copy, PartialEq, Eq, Debug)]
pub enum Rule {
    /// Nowhere: the dates are unadjusted.
    Stay,
    /// Following: to the next Monday.
    Following,
    /// Preceding: to the Friday before.
    Preceding,
    /// Modified following: to the next Monday, or to the Friday before where the Monday is in another month.
    Modified,
}

/// One date of a schedule.
#[derive(Clone, Copy, PartialEq, Eq, Debug)]
pub struct Roll {
    /// The date, adjusted by the rule.
    pub date: Day,
    /// How many steps after the first day the unadjusted date lies; the last day counts as one more step.
    pub period: u32,
    /// Days since the adjusted date of the period before.
    pub days: u32,
}

/// Why a schedule gives no rolls.
#[derive(Clone, Copy, PartialEq, Eq, Debug)]
pub enum RollFault {
    /// The first day isn't before the last one, or the step isn't of 1 to 999 units.
    BadSchedule,
    /// There are more than 4,096 rolls.
    TooMany,
    /// There was no memory left.
    NoMemory,
}

impl From<AllocError> for RollFault {
    ghost use Rattle.std.specs.Prelude.{◌≡◌};
    ghost use Rattle.pay_dates.specs.declared.roll.RollFault.{RollFault};

    ghost from_gives = { λ _ fault. fault ≡ RollFault.NoMemory };

    fn from(_: AllocError) -> RollFault {
        RollFault::NoMemory
    }
}

impl<T: Drop> From<AllocFailed<T>> for RollFault {
    ghost use Rattle.std.specs.Prelude.{◌≡◌};
    ghost use Rattle.pay_dates.specs.declared.roll.RollFault.{RollFault};

    ghost from_gives = { λ _ fault. fault ≡ RollFault.NoMemory };

    fn from(_: AllocFailed<T>) -> RollFault {
        RollFault::NoMemory
    }
}

/// The most rolls of a schedule.
const MOST_ROLLS: usize = 4096;

/// The span of so many units, and of nothing else.
fn span_of(unit: Unit, count: u64) -> Span
    requires { IsStep unit count }
    ensures { IsOnly (time_unit unit) (pos count) result }
{
    let count = count as i64;
    match unit {
        Unit::Days => count.days(),
        Unit::Weeks => count.weeks(),
        Unit::Months => count.months(),
        Unit::Years => count.years(),
    }
}

/// The date so many units after a day; where months or years lead past a month's end, the month's last day.
fn sum(first: Day, unit: Unit, count: u64) -> Date
    requires { IsStep unit count }
    ensures number { day_number result ≡ units_after first unit count }
    ensures in_range { IsDay first }
{
    first.date() + span_of(unit, count)
}

/// The unadjusted date of a period: so many steps after the first day, or the last day once these reach it.
fn unadjusted(first: Day, last: Day, every: u64, unit: Unit, period: u32) -> Day
    requires step { IsStep unit (period * every) }
    requires few { every ≤ 999 }
    ensures number { day_number result ≡ unadjusted first last every unit period }
    ensures in_range { IsDay result }
{
    let date = sum(first, unit, period as u64 * every);
    if date < last.date() {
        Day::from_date(date)
    } else {
        last
    }
}

/// Whether a period gives its roll: the first one does, and a later one where its date isn't the date before.
fn is_given(period: u32, days: u32) -> bool
    ensures { result ≡ is_given period days }
{
    period == 1 || days > 0
}

/// The rolls of the schedule from `first` to `last` with a date every so many units, each adjusted by the rule.
///
/// The unadjusted dates are `first`, the dates 1, 2, .. steps after `first` that lie before `last`, and `last`. Each is
/// counted from `first`, and in months or years the end of a month stands for a day that the month lacks. The first of them
/// gives no roll. A date that the rule moves to the date before gives none either, unless it is that of the first step.
/// `every` counts units; the answer is in order of date, with at most 4,096 rolls.
///
/// # Errors
///
/// [`RollFault::BadSchedule`] exactly where `first` isn't before `last` or `every` isn't from 1 to 999;
/// [`RollFault::TooMany`] where the schedule has more than 4,096 rolls; [`RollFault::NoMemory`] where there was no memory for
/// them.
pub fn roll_dates(
    alloc: Global,
    first: Day,
    last: Day,
    every: u64,
    unit: Unit,
    rule: Rule,
) -> Result<Vec<Roll>, RollFault>
    ensures rolled { IfOk result (λ rolls. rolls.items ≡ rolls_of first last every unit rule) }
    ensures within { IfOk result (λ rolls. IsSchedule first last every × (length rolls.items ≤ 4096)) }
    ensures refused { IfErr result (IsRollCause first last every unit rule) }
    ensures in_range { IsDay first × IsDay last }
{
    if first.number() >= last.number() || every < 1 || every > 999 {
        return Err(RollFault::BadSchedule);
    }
    let mut rolls = Vec::new(alloc);
    let mut day = first;
    let mut before = adjusted(first, rule);
    let mut period = 0;
    while day < last {
        period += 1;
        day = unadjusted(first, last, every, unit, period);
        let date = adjusted(day, rule);
        let days = date.number().abs_diff(before.number());
        if is_given(period, days) {
            if rolls.len() == MOST_ROLLS {
                return Err(RollFault::TooMany);
            }
            rolls.push(Roll { date, period, days })?;
        }
        before = date;
    }
    Ok(rolls)
}

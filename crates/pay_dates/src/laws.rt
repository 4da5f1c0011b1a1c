//! Laws that show the definitions of a day's text and number, and of a schedule's rolls, to be the ones meant. Three
//! stand on a function with an empty body, and one on a function that compares two days; the function's clauses
//! are the law.

ghost use Rattle.pay_dates.specs.Laws.{TextHasTenBytes, TextReadsBack, ReadingIsText, NumberNamesDay, EarlierIsSmaller, EpochIsZero, NextIsOneMore};
ghost use Rattle.std.specs.Prelude.{◌≡◌};
ghost use Rattle.pay_dates.specs.Days.{day_cmp};
ghost use Rattle.pay_dates.specs.RollLaws.{RollsRise, UnadjustedRise, UnadjustedReachLast, NoWeekend, ModifiedKeepsMonth};

use crate::Day;
use std::cmp::Ordering;

/// The law of texts: the text of each day has ten bytes and reads as that day, and a text that
/// reads as a day is that day's text.
pub fn day_text_reads_back()
    ensures ten_bytes { TextHasTenBytes }
    ensures reads_back { TextReadsBack }
    ensures is_text { ReadingIsText }
{}

/// The law of numbers: 1970-01-01 has the number 0, and the day after a day has the next number;
/// dates with one number are one date, and an earlier date, in the order of year, month and day,
/// has a smaller number.
pub fn day_number_orders()
    ensures names { NumberNamesDay }
    ensures orders { EarlierIsSmaller }
    ensures epoch { EpochIsZero }
    ensures next { NextIsOneMore }
{}

/// The law of order: days compare as their numbers do.
pub fn days_compare_by_number(first: Day, second: Day) -> Ordering
    ensures { result ≡ day_cmp first second }
{
    first.cmp(&second)
}

/// The law of schedules: the dates of the rolls rise, from unadjusted dates that rise from the first date until they
/// reach the last one; with a rule that moves none falls on a weekend, and with modified following each
/// stays in the month of its unadjusted date.
pub fn rolls_are_a_schedule()
    ensures rise { RollsRise }
    ensures unadjusted_rise { UnadjustedRise }
    ensures reach_last { UnadjustedReachLast }
    ensures no_weekend { NoWeekend }
    ensures in_month { ModifiedKeepsMonth }
{}

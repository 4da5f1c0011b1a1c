//! Days of the calendar from 1900-01-01 to 2199-12-31: their parts, their numbers and their texts, and the rolls of
//! schedules. The calendar is the proleptic Gregorian one, as in ISO 8601.
//!
//! A `Day` is one date of these three hundred years. In a clause it is the plain date of
//! `jiff_core`, so contracts speak of its `year`, `month` and `day`, of its number by `day_number`,
//! the days since 1970-01-01, and of its text `YYYY-MM-DD` by `day_text`. `day_in` is the reading
//! of a text. The [`laws`] tie the three together, and the order of days to that of their numbers.
//!
//! [`roll_dates`] gives the rolls of a schedule: the dates that a step of days, weeks, months or years gives from a first
//! day to a last one, each moved off a weekend by a [`Rule`]. Its contract defines them by `rolls_of`, from the unadjusted
//! dates, each counted from the first day, and where the rule moves these. The law
//! [`laws::rolls_are_a_schedule`] says that their dates rise, that the unadjusted ones rise from the first day until
//! they reach the last, that no rule that moves leaves a roll on a weekend, and that modified following leaves each in its month.
#![tactic(auto)]

mod business_day;
mod day;
pub mod laws;
mod roll;
mod text;

pub use day::Day;
pub use roll::{Roll, RollFault, Rule, Unit, roll_dates};
pub use text::{NoMemory, read_day, write_day};

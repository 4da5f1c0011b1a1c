//! The text of a day, `YYYY-MM-DD` (the extended form of ISO 8601): read and written.

ghost use Rattle.std.specs.Prelude.{◌≡◌, ◌++◌, ◌+◌, ◌<◌, ◌≤◌, OnOk, OnErr, IsTrue, vec_len, vec_capacity};
ghost use Rattle.pay_dates.specs.Days.{IsDay, day_in, day_text, has_form, two_at};
ghost use Rattle.pay_dates.specs.Parts.{has_two_digits};

use crate::Day;
use std::alloc::{AllocError, AllocFailed};

/// There was no memory left; nothing was changed.
#[derive(Clone, Copy, PartialEq, Eq, Debug)]
pub struct NoMemory;

impl From<AllocError> for NoMemory {
    fn from(_: AllocError) -> NoMemory {
        NoMemory
    }
}

impl<T: Drop> From<AllocFailed<T>> for NoMemory {
    fn from(_: AllocFailed<T>) -> NoMemory {
        NoMemory
    }
}

/// Whether the two bytes from `at` on are digits.
fn has_two_digits(bytes: &[u8; 10], at: usize) -> bool
    requires { at ≤ 8 }
    ensures { result ≡ has_two_digits at bytes.now }
{
    bytes[at].is_ascii_digit() && bytes[at + 1].is_ascii_digit()
}

/// Whether the bytes are digits but for a `-` after the fourth and after the seventh.
fn has_form(bytes: &[u8; 10]) -> bool
    ensures { result ≡ has_form bytes.now }
{
    has_two_digits(bytes, 0)
        && has_two_digits(bytes, 2)
        && bytes[4] == b'-'
        && has_two_digits(bytes, 5)
        && bytes[7] == b'-'
        && has_two_digits(bytes, 8)
}

/// The number that the two digits from `at` on write.
fn two_at(bytes: &[u8; 10], at: usize) -> u8
    requires at_in { at ≤ 8 }
    requires digits { IsTrue (has_two_digits at bytes.now) }
    ensures value { result ≡ two_at at bytes.now }
    ensures below { result < 100 }
{
    10 * (bytes[at] - b'0') + (bytes[at + 1] - b'0')
}

/// The day that the ten bytes write as `YYYY-MM-DD`: a year of four digits, a month and a day of the month of two.
///
/// `None` exactly where the bytes have another form, or write no day from 1900-01-01 to 2199-12-31.
pub fn read_day(bytes: &[u8; 10]) -> Option<Day>
    ensures { result ≡ day_in bytes.now }
{
    if !has_form(bytes) {
        return None;
    }
    let year = 100 * two_at(bytes, 0) as u16 + two_at(bytes, 2) as u16;
    Day::new(year, two_at(bytes, 5), two_at(bytes, 8))
}

/// The digit that writes a number below ten.
fn digit(number: u8) -> u8
    requires { number < 10 }
    ensures { result ≡ 48 + number }
{
    b'0' + number
}

/// Appends the day's text `YYYY-MM-DD`, ten bytes.
///
/// # Errors
///
/// [`NoMemory`] where `into` has no room for the ten bytes and gets none; then `into` is unchanged.
pub fn write_day(day: Day, into: &mut Vec<u8>) -> Result<(), NoMemory>
    ensures ok { OnOk result (into.new.items ≡ into.old.items ++ day_text day) }
    ensures err { OnErr result (into.new.items ≡ into.old.items) }
    ensures full { OnErr result (vec_capacity into.old < vec_len into.old + 10) }
    ensures in_range { IsDay day }
{
    let year = day.year();
    let century = (year / 100) as u8;
    let year = (year % 100) as u8;
    let month = day.month();
    let number = day.day();
    let text = [
        digit(century / 10),
        digit(century % 10),
        digit(year / 10),
        digit(year % 10),
        b'-',
        digit(month / 10),
        digit(month % 10),
        b'-',
        digit(number / 10),
        digit(number % 10),
    ];
    into.extend_from_slice(&text)?;
    Ok(())
}

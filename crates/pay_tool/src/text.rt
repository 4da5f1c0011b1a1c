//! Texts that are built piece by piece.

ghost use Rattle.std.specs.Prelude.{◌≡◌, ◌++◌, OnOk};
ghost use Rattle.std.specs.Fmt.{decimal};
ghost use Rattle.pay_dates.specs.Days.{day_text};

use pay_dates::{Day, write_day};
use pay_fixed::NoMemory;
use std::alloc::Global;

/// Appends a text.
pub fn write_text(words: &[u8], text: &mut Vec<u8>) -> Result<(), NoMemory>
    ensures { OnOk result (text.new.items ≡ text.old.items ++ words.now) }
{
    text.extend_from_slice(words)?;
    Ok(())
}

/// Appends a count.
pub fn write_count(alloc: Global, count: usize, text: &mut Vec<u8>) -> Result<(), NoMemory>
    ensures { OnOk result (text.new.items ≡ text.old.items ++ decimal count) }
{
    let digits = count.to_string(alloc)?;
    text.extend_from_slice(digits.as_bytes())?;
    Ok(())
}

/// Appends a date.
pub fn write_date(date: Day, text: &mut Vec<u8>) -> Result<(), NoMemory>
    ensures { OnOk result (text.new.items ≡ text.old.items ++ day_text date) }
{
    match write_day(date, text) {
        Ok(()) => Ok(()),
        Err(_) => Err(NoMemory),
    }
}

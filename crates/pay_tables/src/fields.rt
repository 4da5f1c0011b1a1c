//! What a field says: a date, or a cell.

ghost use Rattle.std.specs.Prelude.{◌≡◌};
ghost use Rattle.std.specs.Str.{str_eq_ignore_ascii_case};
ghost use Rattle.pay_dates.specs.Days.{day_in};
ghost use Rattle.pay_tables.specs.Fields.{cell_in};
ghost use Rattle.pay_tables.specs.Tables.{is_fixing};

use pay_dates::{Day, read_day};
use pay_fixed::{Fixed, read_decimal};

/// The greatest magnitude of a fixing, in raws of 1/10,000.
const MOST_FIXING: u64 = 1_000_000_000_000_000;

/// Whether a number can be a fixing: at most 10^15 raws in magnitude.
fn is_fixing(number: Fixed) -> bool
    ensures { result ≡ is_fixing number }
{
    number.raw().unsigned_abs() <= MOST_FIXING
}

/// The cell of a field: nothing in an empty one, and else a fixing.
///
/// `None` where the field is neither empty nor a decimal that can be a fixing.
pub fn read_cell(field: &[u8]) -> Option<Option<Fixed>>
    ensures { result ≡ cell_in field.now }
{
    match field {
        [] => Some(None),
        [_, ..] => {
            let number = read_decimal(field).ok()?;
            if is_fixing(number) {
                Some(Some(number))
            } else {
                None
            }
        }
    }
}

/// The day of a field.
///
/// `None` where the field is not a day from 1900-01-01 to 2199-12-31 as `YYYY-MM-DD`.
pub fn read_date(field: &[u8]) -> Option<Day>
    ensures { result ≡ day_in field.now }
{
    read_day(field.as_array::<10>()?)
}

/// Whether a field is this word, in whatever case.
pub fn is_word(field: &[u8], word: &[u8]) -> bool
    ensures { result ≡ str_eq_ignore_ascii_case field.now word.now }
{
    field.eq_ignore_ascii_case(word)
}

//! Writing a number with the fewest decimals.

ghost use Rattle.std.specs.Prelude.{◌≡◌, ℕ, List, ◌++◌, ◌+◌, ◌<◌, ◌≤◌, OnOk, OnErr, length, vec_len, vec_capacity, int_lt, pos};
ghost use Rattle.std.specs.Fmt.{decimal};
ghost use Rattle.pay_fixed.specs.Decimal.{decimal_text, sign_text, point_text, without_zeros, four_digits};

use crate::{Fixed, NoMemory};
use std::alloc::AllocError;

impl Fixed {
    /// Appends the number in decimal, with as few digits after the point as give its value: `12.5`, `0`, `-0.0001`.
    ///
    /// # Errors
    ///
    /// [`NoMemory`] where `into` has no room for all of it and gets none; then `into` is unchanged.
    pub fn write_decimal(self, into: &mut Vec<u8>) -> Result<(), NoMemory>
        ensures ok { OnOk result (into.new.items ≡ into.old.items ++ decimal_text self) }
        ensures err { OnErr result (into.new.items ≡ into.old.items) }
        ensures full { OnErr result (vec_capacity into.old < vec_len into.old + length (decimal_text self)) }
    {
        let before = into.len();
        if put_decimal(self.raw(), into).is_err() {
            into.truncate(before);
            return Err(NoMemory);
        }
        Ok(())
    }
}

/// Appends the decimal of a raw; where there is no room, perhaps a part of it.
#[tactic(auto, using(std::proofs::Common::append_assoc), unfolding(crate::specs::Decimal::decimal_text))]
fn put_decimal(raw: i64, into: &mut Vec<u8>) -> Result<(), AllocError>
    ensures ok { OnOk result (into.new.items ≡ into.old.items ++ decimal_text raw) }
    ensures err { OnErr result ((more : List ℕ) × (into.new.items ≡ into.old.items ++ more)) }
    ensures full { OnErr result (vec_capacity into.old < vec_len into.old + length (decimal_text raw)) }
{
    put_sign(raw, into)?;
    let magnitude = raw.unsigned_abs();
    put_whole(magnitude / 10_000, into)?;
    put_fraction(magnitude % 10_000, into)
}

/// Appends a minus where the raw is below zero.
fn put_sign(raw: i64, into: &mut Vec<u8>) -> Result<(), AllocError>
    ensures ok { OnOk result (into.new.items ≡ into.old.items ++ sign_text (int_lt raw (pos 0))) }
    ensures err { OnErr result ((more : List ℕ) × (into.new.items ≡ into.old.items ++ more)) }
    ensures full { OnErr result (vec_capacity into.old < vec_len into.old + length (sign_text (int_lt raw (pos 0)))) }
    ensures capacity { vec_capacity into.old ≤ vec_capacity into.new }
{
    if raw < 0 {
        into.push(b'-')?;
    }
    Ok(())
}

/// Appends the digits of a number.
fn put_whole(number: u64, into: &mut Vec<u8>) -> Result<(), AllocError>
    ensures ok { OnOk result (into.new.items ≡ into.old.items ++ decimal number) }
    ensures err { OnErr result ((more : List ℕ) × (into.new.items ≡ into.old.items ++ more)) }
    ensures full { OnErr result (vec_capacity into.old < vec_len into.old + length (decimal number)) }
    ensures capacity { vec_capacity into.old ≤ vec_capacity into.new }
{
    if number >= 10 {
        put_whole(number / 10, into)?;
    }
    into.push(b'0' + (number % 10) as u8)?;
    Ok(())
}

/// Appends the point and the decimals of a number of ten-thousandths, without the zeros at their end.
fn put_fraction(number: u64, into: &mut Vec<u8>) -> Result<(), AllocError>
    requires { number < 10_000 }
    ensures ok { OnOk result (into.new.items ≡ into.old.items ++ point_text (without_zeros (four_digits number))) }
    ensures err { OnErr result ((more : List ℕ) × (into.new.items ≡ into.old.items ++ more)) }
    ensures full { OnErr result (vec_capacity into.old < vec_len into.old + length (point_text (without_zeros (four_digits number)))) }
    ensures capacity { vec_capacity into.old ≤ vec_capacity into.new }
{
    let first = b'0' + (number / 1000) as u8;
    let second = b'0' + (number / 100 % 10) as u8;
    let third = b'0' + (number / 10 % 10) as u8;
    let fourth = b'0' + (number % 10) as u8;
    if fourth != b'0' {
        into.extend_from_slice(&[b'.', first, second, third, fourth])
    } else if third != b'0' {
        into.extend_from_slice(&[b'.', first, second, third])
    } else if second != b'0' {
        into.extend_from_slice(&[b'.', first, second])
    } else if first != b'0' {
        into.extend_from_slice(&[b'.', first])
    } else {
        Ok(())
    }
}

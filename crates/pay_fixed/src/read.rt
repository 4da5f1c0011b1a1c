//! Reading a decimal: `12.5`, `-0.0001`, `+1e-05`.

ghost use Rattle.std.specs.Prelude.{◌≡◌, ◌+◌, ◌-◌, ◌*◌, ◌^◌, ◌<◌, ◌≤◌, min, ◌++◌};
ghost use Rattle.std.specs.Option.{option_map};
ghost use Rattle.pay_fixed.specs.Round.{limited};
ghost use Rattle.pay_fixed.specs.Grammar.{AreDigits, number_on, signed, raw_of};
ghost use Rattle.pay_fixed.specs.Reading.{after_blanks, all_blank, digits_at, after_digits, has_minus, after_sign};
ghost use Rattle.pay_fixed.specs.Reading.{power_at, only_power, exponent_at, fraction_at, unsigned_at, signed_at};
ghost use Rattle.pay_fixed.specs.Parts.{reading, beyond, leading, shifted_length};
ghost use Rattle.pay_fixed.specs.Decimal.{decimal_in};

use crate::{Fixed, LIMIT, NumberFault};

/// The most bytes that a decimal may have.
const MOST_BYTES: usize = 40;

/// From here on a value in tenths of a raw need not be known exactly: rounded, it lies beyond the limit.
const BEYOND: u64 = 10_000_000_000_000_000_010;

/// A decimal in a text, and the text after it.
#[derive(Clone, Copy)]
struct Parts<'a> {
    negative: bool,
    whole: &'a [u8],
    fraction: &'a [u8],
    exponent: i32,
    rest: &'a [u8],
}

/// The number that a text spells: spaces and tabs at both ends count for nothing; what is between has 1 to 40 bytes,
/// a sign or none, digits, perhaps a point and digits, perhaps `e` or `E`, a sign or none and one or two digits.
/// Its exact value is rounded once to four places, a half away from zero (IEEE 754's `roundTiesToAway`).
///
/// # Errors
///
/// [`NumberFault::NotNumber`] where the text has another form, [`NumberFault::TooLarge`] where it has this form and
/// the rounded value lies beyond the limit.
#[tactic(auto, unfolding(crate::specs::Decimal::decimal_in))]
pub fn read_decimal(bytes: &[u8]) -> Result<Fixed, NumberFault>
    ensures { result ≡ decimal_in bytes.now }
{
    let text = skip_blanks(bytes);
    let Some(parts) = read_signed(text) else {
        return Err(NumberFault::NotNumber);
    };
    if text.len().saturating_sub(parts.rest.len()) > MOST_BYTES || !is_blank(parts.rest) {
        return Err(NumberFault::NotNumber);
    }
    rounded(parts)
}

/// The text without the blanks at its front.
fn skip_blanks(text: &[u8]) -> &[u8]
    ensures { result.now ≡ after_blanks text.now }
{
    let mut rest = text;
    while let [b' ' | b'\t', tail @ ..] = rest {
        rest = tail;
    }
    rest
}

/// Whether the text has blanks alone.
#[tactic(auto, using(crate::proofs::Digits::no_more_blanks))]
fn is_blank(text: &[u8]) -> bool
    ensures { result ≡ all_blank text.now }
{
    skip_blanks(text).is_empty()
}

/// The digits at the front of a text, and what follows them.
fn split_digits(text: &[u8]) -> (&[u8], &[u8])
    ensures digits { result.0.now ≡ digits_at text.now }
    ensures rest { result.1.now ≡ after_digits text.now }
{
    let mut count = 0;
    while count < text.len() && text[count].is_ascii_digit() {
        count += 1;
    }
    text.split_at(count)
}

/// Whether a text begins with a minus, and what follows its sign.
fn split_sign(text: &[u8]) -> (bool, &[u8])
    ensures minus { result.0 ≡ has_minus text.now }
    ensures rest { result.1.now ≡ after_sign text.now }
{
    match text {
        [b'-', rest @ ..] => (true, rest),
        [b'+', rest @ ..] => (false, rest),
        _ => (false, text),
    }
}

/// A decimal with a sign or none.
fn read_signed(text: &[u8]) -> Option<Parts>
    ensures { option_map reading result ≡ signed_at text.now }
{
    let (negative, digits) = split_sign(text);
    let parts = read_unsigned(digits)?;
    Some(Parts { negative, ..parts })
}

/// A decimal without a sign.
fn read_unsigned(text: &[u8]) -> Option<Parts>
    ensures { option_map reading result ≡ unsigned_at text.now }
{
    let (whole, rest) = split_digits(text);
    if whole.is_empty() {
        return None;
    }
    let parts = read_fraction(rest)?;
    Some(Parts { whole, ..parts })
}

/// What may follow the digits before the point.
fn read_fraction(text: &[u8]) -> Option<Parts>
    ensures { option_map reading result ≡ fraction_at text.now }
{
    let [b'.', digits @ ..] = text else {
        return read_exponent(text);
    };
    let (fraction, rest) = split_digits(digits);
    if fraction.is_empty() {
        return None;
    }
    let parts = read_exponent(rest)?;
    Some(Parts { fraction, ..parts })
}

/// A power of ten, or none.
fn read_exponent(text: &[u8]) -> Option<Parts>
    ensures { option_map reading result ≡ exponent_at text.now }
{
    let [b'e' | b'E', power @ ..] = text else {
        return Some(only_power(0, text));
    };
    let (negative, digits) = split_sign(power);
    read_power(negative, digits)
}

/// The one or two digits of a power.
#[tactic(auto, using(crate::proofs::Digits::small_power))]
fn read_power(negative: bool, text: &[u8]) -> Option<Parts>
    ensures { option_map reading result ≡ power_at negative text.now }
{
    let (digits, rest) = split_digits(text);
    if digits.is_empty() || digits.len() > 2 {
        return None;
    }
    let magnitude = with_digits(0, digits) as i32;
    Some(only_power(if negative { -magnitude } else { magnitude }, rest))
}

/// A power of ten, and the text after it.
fn only_power(exponent: i32, rest: &[u8]) -> Parts
    ensures { reading result ≡ only_power exponent rest.now }
{
    Parts {
        negative: false,
        whole: &[],
        fraction: &[],
        exponent,
        rest,
    }
}

/// The number of the decimal, if it lies within the limit.
fn rounded(parts: Parts) -> Result<Fixed, NumberFault>
    requires { AreDigits (reading parts).decimal.whole × AreDigits (reading parts).decimal.fraction }
    ensures { result ≡ limited NumberFault.TooLarge (raw_of (reading parts.entry).decimal) }
{
    let count = places(parts.whole.len(), parts.exponent);
    let tenths = first_digits(parts.whole, parts.fraction, count);
    signed_number(parts.negative, (tenths + 5) / 10)
}

/// The number of this sign and magnitude, if it lies within the limit.
fn signed_number(negative: bool, magnitude: u64) -> Result<Fixed, NumberFault>
    requires { magnitude < 2 ^ 63 }
    ensures { result ≡ limited NumberFault.TooLarge (signed negative magnitude) }
{
    let magnitude = magnitude as i64;
    let raw = if negative { -magnitude } else { magnitude };
    Fixed::from_raw(raw).ok_or(NumberFault::TooLarge)
}

/// How many digits of a decimal say what its raw is: all before the point and five after it, moved by its power of ten.
fn places(whole: usize, exponent: i32) -> usize
    requires { whole < 2 ^ 63 }
    ensures { result ≡ shifted_length whole exponent }
{
    let shift = i64::from(exponent) + 5;
    let distance = shift.unsigned_abs() as usize;
    if shift < 0 {
        whole.saturating_sub(distance)
    } else {
        whole + distance
    }
}

/// The number that the first `count` digits write, with zeros after them where there are too few; at most `BEYOND`.
fn first_digits(whole: &[u8], fraction: &[u8], count: usize) -> u64
    ensures { result ≡ min (leading count (whole.now ++ fraction.now)) beyond }
{
    let front = &whole[..count.min(whole.len())];
    let left = count - front.len();
    let next = &fraction[..left.min(fraction.len())];
    with_zeros(with_digits(with_digits(0, front), next), left - next.len())
}

/// The number that the digits of `start` and then these write; at most `BEYOND`.
fn with_digits(start: u64, digits: &[u8]) -> u64
    requires { start ≤ beyond }
    ensures { result ≡ min (number_on start digits.now) beyond }
{
    let mut value = start;
    for digit in digits {
        value = with_digit(value, *digit);
    }
    value
}

/// The number that the digits of `start` and then `count` zeros write; at most `BEYOND`.
#[tactic(auto, using(crate::proofs::Capped::capped_zero))]
fn with_zeros(start: u64, count: usize) -> u64
    requires { start ≤ beyond }
    ensures { result ≡ min (start * 10 ^ count) beyond }
{
    let mut value = start;
    for _ in 0..count {
        value = with_digit(value, b'0');
    }
    value
}

/// The value with one more digit after it; at most `BEYOND`.
fn with_digit(value: u64, digit: u8) -> u64
    ensures { result ≡ min (10 * value + (digit - 48)) beyond }
{
    if value > LIMIT {
        return BEYOND;
    }
    (10 * value + u64::from(digit.saturating_sub(b'0'))).min(BEYOND)
}

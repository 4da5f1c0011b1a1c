//! The number type and its arithmetic: sums are exact, products and quotients are rounded once.

ghost use Rattle.std.specs.Prelude.{◌≡◌, ◌↔◌, ◌+ℤ◌, ◌-ℤ◌, neg_ℤ, pos, unsigned_abs, IfSome, IsSome};
ghost use Rattle.std.specs.Int.{int_min, int_max};
ghost use Rattle.pay_fixed.specs.Round.{limited, product, quotient, IsRaw};

use crate::Arith;
use crate::round::{SCALE, product, rounded};
use std::marker::Model;

/// The greatest raw of a [`Fixed`], and with a minus sign the least: 10^18, in units of 1/10,000.
pub const LIMIT: u64 = 1_000_000_000_000_000_000;

/// A decimal number: a whole count (its raw) of 1/10,000, within -[`LIMIT`] to [`LIMIT`].
#[derive(Clone, Copy, PartialEq, Eq, PartialOrd, Ord, Debug)]
pub struct Fixed {
    raw: i64,
}

impl Model for Fixed {
    ghost use Rattle.std.specs.Prelude.{ℤ};
    ghost use Rattle.pay_fixed.specs.Round.{IsRaw};

    ghost Value = { ℤ };

    ghost view = { λ a. a.raw };

    ghost invariant = { λ a. IsRaw a.raw };

    ghost inverse = { λ z. record { raw = z } };
}

impl Fixed {
    /// The number whose raw is `raw`, a count of 1/10,000.
    ///
    /// `None` exactly where `raw` lies beyond the limit.
    pub fn from_raw(raw: i64) -> Option<Fixed>
        ensures within { IsSome result ↔ IsRaw raw }
        ensures same { IfSome result (λ number. number ≡ raw) }
    {
        if raw.unsigned_abs() <= LIMIT {
            Some(Fixed { raw })
        } else {
            None
        }
    }

    /// The number whose raw is `raw`, which lies within the limit.
    pub(crate) fn within(raw: i128) -> Fixed
        requires { IsRaw raw }
        ensures { result ≡ raw }
    {
        Fixed { raw: raw as i64 }
    }

    /// The raw of the number, a count of 1/10,000 within the limit.
    pub fn raw(self) -> i64
        ensures same { result ≡ self }
        ensures within { IsRaw result }
    {
        self.raw
    }

    /// The sum of the two numbers, exactly.
    ///
    /// # Errors
    ///
    /// [`Arith::Overflow`] exactly where the sum lies beyond the limit.
    pub fn add(self, other: Fixed) -> Result<Fixed, Arith>
        ensures { result ≡ limited Arith.Overflow (self +ℤ other) }
    {
        Fixed::from_raw(self.raw + other.raw).ok_or(Arith::Overflow)
    }

    /// This number less the other, exactly.
    ///
    /// # Errors
    ///
    /// [`Arith::Overflow`] exactly where the difference lies beyond the limit.
    pub fn sub(self, other: Fixed) -> Result<Fixed, Arith>
        ensures { result ≡ limited Arith.Overflow (self -ℤ other) }
    {
        Fixed::from_raw(self.raw - other.raw).ok_or(Arith::Overflow)
    }

    /// The product of the two numbers, rounded once to the nearest raw, a half away from zero.
    ///
    /// # Errors
    ///
    /// [`Arith::Overflow`] exactly where the rounded product lies beyond the limit.
    pub fn mul(self, other: Fixed) -> Result<Fixed, Arith>
        ensures { result ≡ product Arith.Overflow self other }
    {
        within_limit(rounded(product(self.raw, other.raw), SCALE))
    }

    /// This number over the other, rounded once to the nearest raw, a half away from zero.
    ///
    /// # Errors
    ///
    /// [`Arith::ZeroDivisor`] exactly where the other number is zero; [`Arith::Overflow`] exactly where it is not and
    /// the rounded quotient lies beyond the limit.
    pub fn div(self, other: Fixed) -> Result<Fixed, Arith>
        ensures { result ≡ quotient Arith.Overflow Arith.ZeroDivisor self other }
    {
        if other.raw == 0 {
            return Err(Arith::ZeroDivisor);
        }
        within_limit(rounded(product(self.raw, SCALE), other.raw))
    }

    /// The number with the other sign; zero stays zero.
    pub fn neg(self) -> Fixed
        ensures { result ≡ neg_ℤ self }
    {
        Fixed { raw: -self.raw }
    }

    /// The magnitude of the number: the number without its sign.
    pub fn abs(self) -> Fixed
        ensures { result ≡ pos (unsigned_abs self) }
    {
        Fixed {
            raw: self.raw.abs(),
        }
    }

    /// The smaller of the two numbers.
    pub fn min(self, other: Fixed) -> Fixed
        ensures { result ≡ int_min self other }
    {
        Fixed {
            raw: self.raw.min(other.raw),
        }
    }

    /// The greater of the two numbers.
    pub fn max(self, other: Fixed) -> Fixed
        ensures { result ≡ int_max self other }
    {
        Fixed {
            raw: self.raw.max(other.raw),
        }
    }
}

/// The number of this raw, if it lies within the limit.
fn within_limit(raw: i128) -> Result<Fixed, Arith>
    ensures { result ≡ limited Arith.Overflow raw }
{
    if raw.unsigned_abs() <= u128::from(LIMIT) {
        Ok(Fixed { raw: raw as i64 })
    } else {
        Err(Arith::Overflow)
    }
}

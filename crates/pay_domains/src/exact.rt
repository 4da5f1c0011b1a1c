//! Products of raws and rounded quotients in 128 bits, exact where the limit of a number is passed.

ghost use Rattle.std.specs.Prelude.{◌≡◌, ◌≢◌, ◌<◌, ◌≤◌, ◌^◌, ◌*ℤ◌, pos, unsigned_abs};
ghost use Rattle.pay_fixed.specs.Round.{nearest, round};

/// One in raws: there are ten thousand to a whole.
pub(crate) const SCALE: i64 = 10_000;

/// The product of two whole numbers, exactly.
pub(crate) fn product(a: i64, b: i64) -> i128
    ensures same { result ≡ a *ℤ b }
    ensures small { unsigned_abs result ≤ 2 ^ 126 }
{
    i128::from(a) * i128::from(b)
}

/// The whole number nearest to `dividend / divisor`, a half away from zero. The divisor is not 0, and the dividend lies within 2^126.
pub(crate) fn rounded(dividend: i128, divisor: i64) -> i128
    requires divides { divisor ≢ pos 0 }
    requires small { unsigned_abs dividend ≤ 2 ^ 126 }
    ensures { result ≡ round dividend divisor }
{
    let magnitude = nearest(dividend.unsigned_abs(), divisor.unsigned_abs()) as i128;
    if (dividend < 0) == (divisor < 0) {
        magnitude
    } else {
        -magnitude
    }
}

/// The whole number nearest to `dividend / divisor`, a half up.
fn nearest(dividend: u128, divisor: u64) -> u128
    requires divides { 0 < divisor }
    requires small { dividend ≤ 2 ^ 126 }
    ensures same { result ≡ nearest dividend divisor }
    ensures small { result ≤ 2 ^ 126 }
{
    let divisor = u128::from(divisor);
    (2 * dividend + divisor) / (2 * divisor)
}

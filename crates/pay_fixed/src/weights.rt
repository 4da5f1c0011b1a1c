//! What a smoothed comparison weighs, and what a weight makes of numbers.

ghost use Rattle.std.specs.Prelude.{◌≡◌, ◌+ℤ◌, ◌-◌, ◌*◌, ◌*ℤ◌, ◌<ℤ◌, ◌≤◌, ◌≤ℤ◌, pos, unsigned_abs};
ghost use Rattle.pay_fixed.specs.Round.{limit};
ghost use Rattle.pay_fixed.specs.Smooth.{IsAbove, IsBelow, IsGap, IsGood};
ghost use Rattle.pay_fixed.specs.Weights.{blended, climb, fall, peak, rise, scaled, share, weight_of, whole};

use crate::round::{product, rounded};
use crate::{Fixed, Smooth};

/// The weight of what is true; what is false weighs 0.
pub const WHOLE: u32 = 1_000_000;

/// The weight of a comparison whose gap, the difference of its two numbers in raws, is `x`: from 0 to [`WHOLE`].
#[tactic(auto, unfolding(crate::specs::Weights::weight_of))]
pub fn weight(kind: Smooth, x: i64) -> u32
    requires good { IsGood kind }
    requires gap { IsGap x }
    ensures same { result ≡ weight_of kind x }
    ensures within { result ≤ whole }
{
    match kind {
        Smooth::Rise { low, high } => rise(low, high, x),
        Smooth::Peak { below, above } => peak(below, above, x),
    }
}

/// The two numbers blended: `yes` by the weight and `no` by what is left of [`WHOLE`], rounded once to the nearest raw,
/// a half away from zero.
pub fn blend(weight: u32, yes: Fixed, no: Fixed) -> Fixed
    requires { weight ≤ whole }
    ensures { result ≡ blended weight yes no }
{
    Fixed::within(rounded(mixed(weight, yes, no), i64::from(WHOLE)))
}

/// The amount by the weight, rounded once to the nearest raw, a half away from zero.
pub fn scale(weight: u32, amount: Fixed) -> Fixed
    requires { weight ≤ whole }
    ensures { result ≡ scaled weight amount }
{
    Fixed::within(rounded(product(i64::from(weight), amount.raw()), i64::from(WHOLE)))
}

/// The weight of a rise from `low` to `high`.
fn rise(low: i64, high: i64, x: i64) -> u32
    requires rises { low <ℤ high }
    requires low { IsGap low }
    requires high { IsGap high }
    ensures same { result ≡ rise low high x }
    ensures within { result ≤ whole }
{
    if x <= low {
        0
    } else if high <= x {
        WHOLE
    } else {
        share(x - low, high - low)
    }
}

/// The weight of a peak between `below` and `above`.
fn peak(below: Option<i64>, above: Option<i64>, x: i64) -> u32
    requires below { IsBelow below }
    requires above { IsAbove above }
    ensures same { result ≡ peak below above x }
    ensures within { result ≤ whole }
{
    if x == 0 {
        WHOLE
    } else if 0 < x {
        fall(above, x)
    } else {
        climb(below, x)
    }
}

/// The weight of a peak at a gap above 0.
fn fall(above: Option<i64>, x: i64) -> u32
    requires above { IsAbove above }
    requires positive { pos 0 <ℤ x }
    ensures same { result ≡ fall above x }
    ensures within { result ≤ whole }
{
    match above {
        None => WHOLE,
        Some(above) if above <= x => 0,
        Some(above) => share(above - x, above),
    }
}

/// The weight of a peak at a gap below 0.
fn climb(below: Option<i64>, x: i64) -> u32
    requires below { IsBelow below }
    requires negative { x <ℤ pos 0 }
    ensures same { result ≡ climb below x }
    ensures within { result ≤ whole }
{
    match below {
        None => WHOLE,
        Some(below) if x <= below => 0,
        Some(below) => share(x - below, -below),
    }
}

/// The share of [`WHOLE`] that `part` is of `length`, rounded once.
#[tactic(auto, using(crate::proofs::Shares::share_within))]
fn share(part: i64, length: i64) -> u32
    requires positive { pos 0 <ℤ length }
    requires part { (pos 0 ≤ℤ part) × (part ≤ℤ length) }
    ensures same { result ≡ share part length }
    ensures within { result ≤ whole }
{
    rounded(product(part, i64::from(WHOLE)), length).unsigned_abs() as u32
}

/// `yes` as often as the weight says and `no` as often as is left of [`WHOLE`].
fn mixed(weight: u32, yes: Fixed, no: Fixed) -> i128
    requires { weight ≤ whole }
    ensures same { result ≡ (pos weight *ℤ yes) +ℤ (pos (whole - weight) *ℤ no) }
    ensures small { unsigned_abs result ≤ whole * limit }
{
    product(i64::from(weight), yes.raw()) + product(i64::from(WHOLE - weight), no.raw())
}

//! Laws that show the definitions of rounding, of decimals and of weights, and the order of numbers, to be the ones
//! meant. One stands on a function that compares two numbers, and each other on one with an empty body; the function's
//! clause is the law.

ghost use Rattle.pay_fixed.specs.Round.{RoundIsNearest};
ghost use Rattle.pay_fixed.specs.Laws.{DecimalIsSpelled, DecimalReadsBack, DecimalHasFewestPlaces};
ghost use Rattle.pay_fixed.specs.WeightLaws.{WeightIsWithin, WeightIsSharpOutside, RiseNeverFalls};
ghost use Rattle.pay_fixed.specs.WeightLaws.{BlendLiesBetween, ScaledIsBlended};
ghost use Rattle.std.specs.Prelude.{◌≡◌};
ghost use Rattle.std.specs.Ordering.{int_cmp};

use crate::Fixed;
use std::cmp::Ordering;

/// `round` gives the nearest whole number, and of two that are as near the one farther from zero.
pub fn round_is_nearest()
    ensures { RoundIsNearest }
{}

/// A text is read as a number exactly where it spells a decimal whose raw, rounded once, is this number, within the
/// limit; it is too large exactly where it spells one beyond the limit, and no number exactly where it spells none.
pub fn decimal_is_spelled()
    ensures { DecimalIsSpelled }
{}

/// Each number within the limit is read back from the text that is written for it.
pub fn decimal_reads_back()
    ensures { DecimalReadsBack }
{}

/// The text of a number spells exactly that number, and no decimal without a power of ten that is exactly this number
/// has fewer digits after the point.
pub fn decimal_has_fewest_places()
    ensures { DecimalHasFewestPlaces }
{}

/// The weight of a smoothed comparison lies from 0 to the whole.
pub fn weight_is_within()
    ensures { WeightIsWithin }
{}

/// Outside the open interval of a smoothing each weight is 0 or the whole: a rise up to `low` and from `high` on, a
/// peak at 0, up to `below` and from `above` on.
pub fn weight_is_sharp_outside()
    ensures { WeightIsSharpOutside }
{}

/// The weight of a rise never falls as the gap grows.
pub fn rise_never_falls()
    ensures { RiseNeverFalls }
{}

/// A blend lies between its two numbers; it is the second at weight 0 and the first at the whole, and a blend of two
/// equal numbers is that number.
pub fn blend_lies_between()
    ensures { BlendLiesBetween }
{}

/// To scale a number is to blend it with 0.
pub fn scaled_is_blended()
    ensures { ScaledIsBlended }
{}

/// The law of order: numbers compare as their raws do.
pub fn numbers_compare_by_raw(first: Fixed, second: Fixed) -> Ordering
    ensures { result ≡ int_cmp first second }
{
    first.cmp(&second)
}

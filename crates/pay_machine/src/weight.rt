//! The weight of a condition.

ghost use Rattle.std.specs.Prelude.{◌≡◌, ◌-◌, nat_eq};
ghost use Rattle.pay_code.specs.Programs.{IsGoodIfAny};
ghost use Rattle.pay_fixed.specs.Smooth.{IsGap, IsGood};
ghost use Rattle.pay_fixed.specs.Weights.{blended, scaled, whole as full};
ghost use Rattle.pay_meaning.specs.Meaning as meant;
ghost use Rattle.pay_runs.specs.Weighing.{certain, compared_weight, either, gap, joint, smooth_weight};
ghost use Rattle.pay_tree.specs.Owned.{note_of};
ghost use Rattle.pay_tree.specs.Views.{comparison};

use pay_fixed::{Fixed, Smooth, WHOLE};
use pay_tree::Compare;
use std::marker::Model;

/// The weight of a condition, from 0 for false to [`WHOLE`] for true.
#[derive(Clone, Copy)]
pub(crate) struct Weight {
    part: u32,
}

impl Model for Weight {
    ghost use Rattle.std.specs.Prelude.{ℕ, ◌≤◌};
    ghost use Rattle.pay_fixed.specs.Weights.{whole as full};

    ghost Value = { ℕ };

    ghost view = { λ weight. weight.part };

    ghost invariant = { λ weight. weight.part ≤ full };

    ghost inverse = { λ part. record { part = part } };
}

impl Weight {
    /// The weight of what is false.
    pub(crate) fn nothing() -> Weight
        ensures { result ≡ 0 }
    {
        Weight { part: 0 }
    }

    /// The weight of what is true, or of what is false.
    pub(crate) fn certain(answer: bool) -> Weight
        ensures { result ≡ certain answer }
    {
        Weight {
            part: if answer { WHOLE } else { 0 },
        }
    }

    /// Whether it is that of what is false.
    pub(crate) fn is_nothing(self) -> bool
        ensures { result ≡ nat_eq self 0 }
    {
        self.part == 0
    }

    /// Whether it is that of what is true.
    pub(crate) fn is_whole(self) -> bool
        ensures { result ≡ nat_eq self full }
    {
        self.part == WHOLE
    }

    /// What it leaves of the whole.
    pub(crate) fn rest(self) -> Weight
        ensures { result ≡ full - self }
    {
        Weight {
            part: WHOLE - self.part,
        }
    }

    /// The weight of two conditions together.
    #[tactic(auto, using(pay_code::proofs::WeightLemmas::joint_within))]
    pub(crate) fn joint(self, other: Weight) -> Weight
        ensures { result ≡ joint self other }
    {
        let whole = u64::from(WHOLE);
        let product = u64::from(self.part) * u64::from(other.part);
        Weight {
            part: ((2 * product + whole) / (2 * whole)) as u32,
        }
    }

    /// The weight of one of two conditions.
    #[tactic(auto, using(pay_code::proofs::WeightLemmas::either_within))]
    pub(crate) fn either(self, other: Weight) -> Weight
        ensures { result ≡ either self other }
    {
        Weight {
            part: self.part + other.part - self.joint(other).part,
        }
    }

    /// The weight of a comparison of two numbers; its smoothing is read in a fuzzy run alone.
    pub(crate) fn of_comparison(
        fuzzy: bool,
        op: Compare,
        smooth: Option<Smooth>,
        left: Fixed,
        right: Fixed,
    ) -> Weight
        requires { IsGoodIfAny smooth }
        ensures { result ≡ compared_weight fuzzy (comparison op) (note_of smooth) left right }
    {
        match smooth {
            Some(smooth) if fuzzy => Weight::of_smooth(op, smooth, left, right),
            _ => Weight::certain(compared(op, left, right)),
        }
    }

    /// The weight of a smoothed comparison of two numbers.
    fn of_smooth(op: Compare, smooth: Smooth, left: Fixed, right: Fixed) -> Weight
        requires { IsGood smooth }
        ensures { result ≡ smooth_weight (comparison op) smooth (gap (comparison op) left right) }
    {
        let weight = Weight {
            part: pay_fixed::weight(smooth, gap(op, left, right)),
        };
        match op {
            Compare::Differs => weight.rest(),
            _ => weight,
        }
    }

    /// Two numbers blended by the weight of the first.
    pub(crate) fn blend(self, yes: Fixed, no: Fixed) -> Fixed
        ensures { result ≡ blended self yes no }
    {
        pay_fixed::blend(self.part, yes, no)
    }

    /// An amount scaled by the weight.
    pub(crate) fn scale(self, amount: Fixed) -> Fixed
        ensures { result ≡ scaled self amount }
    {
        pay_fixed::scale(self.part, amount)
    }
}

/// Whether two numbers compare so.
fn compared(op: Compare, left: Fixed, right: Fixed) -> bool
    ensures { result ≡ meant.compared (comparison op) left right }
{
    match op {
        Compare::Less => left < right,
        Compare::LessEq => left <= right,
        Compare::More => left > right,
        Compare::MoreEq => left >= right,
        Compare::Same => left == right,
        Compare::Differs => left != right,
    }
}

/// How far one number lies from the other, counted so that a greater gap speaks for the comparison.
fn gap(op: Compare, left: Fixed, right: Fixed) -> i64
    ensures same { result ≡ gap (comparison op) left right }
    ensures within { IsGap result }
{
    match op {
        Compare::Less | Compare::LessEq => right.raw() - left.raw(),
        Compare::More | Compare::MoreEq | Compare::Same | Compare::Differs => {
            left.raw() - right.raw()
        }
    }
}

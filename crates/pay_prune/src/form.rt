//! What the form of a test tells of its answer, and what it leaves of `and` and `or`.

ghost use Rattle.std.specs.Prelude.{◌≡◌};
ghost use Rattle.pay_prune.specs.declared.form.Kept.{Kept};
ghost use Rattle.pay_simplified.specs.Pruning.{literal_in};
ghost use Rattle.pay_simplified.specs.Simplified.{and_form, or_form, unless_false, unless_true};
ghost use Rattle.pay_tree.specs.OwnedViews.{test_tree};

use pay_tree::{Test, TestKind};

/// What is kept of the two sides of a test.
#[derive(Clone, Copy, PartialEq, Eq, Debug)]
pub(crate) enum Kept {
    /// The left side alone.
    Left,
    /// The right side alone.
    Right,
    /// Both.
    Both,
}

/// The answer of a test that is a truth literal.
pub(crate) fn literal(test: &Test) -> Option<bool>
    ensures { result ≡ literal_in (test_tree test.now) }
{
    match &test.kind {
        TestKind::Truth(answer) => match test.sure {
            None => Some(*answer),
            Some(_) => None,
        },
        TestKind::Compare { .. } => None,
        TestKind::Not(_) => None,
        TestKind::And(_, _) => None,
        TestKind::Or(_, _) => None,
    }
}

/// What is kept of `and`: by the truth literal that its left side is, the answer that this is sure of, and the truth literal that its right side is.
pub(crate) fn kept_of_and(left: Option<bool>, sure: Option<bool>, right: Option<bool>) -> Kept
    ensures { result ≡ and_form left sure right Kept.Left Kept.Right Kept.Both }
{
    match left {
        Some(true) => Kept::Right,
        Some(false) => Kept::Left,
        None => match sure {
            Some(false) => Kept::Left,
            Some(true) => kept_unless_true(right),
            None => kept_unless_true(right),
        },
    }
}

/// What is kept of `or`, by the same.
pub(crate) fn kept_of_or(left: Option<bool>, sure: Option<bool>, right: Option<bool>) -> Kept
    ensures { result ≡ or_form left sure right Kept.Left Kept.Right Kept.Both }
{
    match left {
        Some(false) => Kept::Right,
        Some(true) => Kept::Left,
        None => match sure {
            Some(true) => Kept::Left,
            Some(false) => kept_unless_false(right),
            None => kept_unless_false(right),
        },
    }
}

/// What is kept of `and` whose left side is open: a true right side adds nothing to it.
fn kept_unless_true(right: Option<bool>) -> Kept
    ensures { result ≡ unless_true right Kept.Left Kept.Both }
{
    match right {
        Some(true) => Kept::Left,
        Some(false) => Kept::Both,
        None => Kept::Both,
    }
}

/// What is kept of `or` whose left side is open: a false right side adds nothing to it.
fn kept_unless_false(right: Option<bool>) -> Kept
    ensures { result ≡ unless_false right Kept.Left Kept.Both }
{
    match right {
        Some(false) => Kept::Left,
        Some(true) => Kept::Both,
        None => Kept::Both,
    }
}

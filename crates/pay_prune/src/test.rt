//! A test whose sides are pruned, by their forms and by its mark.

ghost use Rattle.std.specs.Prelude.{◌≡◌, None};
ghost use Rattle.pay_simplified.specs.Pruning.{literal_in, marked_test, not_test, sure_in, test_answered, tidy_test, told_test};
ghost use Rattle.pay_simplified.specs.Simplified.{and_form, or_form};
ghost use Rattle.pay_tree.specs.Owned.{and_at, not_at, or_at, truth_at};
ghost use Rattle.pay_tree.specs.OwnedViews.{test_tree};

use crate::form::{Kept, kept_of_and, kept_of_or, literal};
use pay_analysis::Mark;
use pay_tree::{Test, TestKind};

/// The test by the forms of its sides.
pub(crate) fn tidied(test: Test) -> Test
    ensures { test_tree result ≡ tidy_test (test_tree test) }
{
    let Test { id, sure, kind } = test;
    match kind {
        TestKind::Truth(answer) => Test {
            id,
            sure,
            kind: TestKind::Truth(answer),
        },
        TestKind::Compare {
            op,
            left,
            right,
            smooth,
        } => Test {
            id,
            sure,
            kind: TestKind::Compare {
                op,
                left,
                right,
                smooth,
            },
        },
        TestKind::Not(side) => negated(id, sure, side),
        TestKind::And(left, right) => conjoined(id, sure, left, right),
        TestKind::Or(left, right) => disjoined(id, sure, left, right),
    }
}

/// `not side`: a truth literal in the side's place, or the side, sure of the other answer, where the side's form tells the answer.
fn negated(id: u32, sure: Option<bool>, side: Box<Test>) -> Test
    ensures { test_tree result
        ≡ not_test (literal_in (test_tree side.value)) (sure_in (test_tree side.value)) (test_tree side.value) (not_at id sure (test_tree side.value)) }
{
    if let Some(answer) = literal(&side) {
        truth(side.id, !answer)
    } else if let Some(answer) = side.sure {
        told(Box::into_inner(side), !answer)
    } else {
        Test {
            id,
            sure,
            kind: TestKind::Not(side),
        }
    }
}

/// `left and right`, or one of the sides.
fn conjoined(id: u32, sure: Option<bool>, left: Box<Test>, right: Box<Test>) -> Test
    ensures { test_tree result
        ≡ and_form (literal_in (test_tree left.value)) (sure_in (test_tree left.value)) (literal_in (test_tree right.value))
        (test_tree left.value) (test_tree right.value) (and_at id sure (test_tree left.value) (test_tree right.value)) }
{
    match kept_of_and(literal(&left), left.sure, literal(&right)) {
        Kept::Left => Box::into_inner(left),
        Kept::Right => Box::into_inner(right),
        Kept::Both => Test {
            id,
            sure,
            kind: TestKind::And(left, right),
        },
    }
}

/// `left or right`, or one of the sides.
fn disjoined(id: u32, sure: Option<bool>, left: Box<Test>, right: Box<Test>) -> Test
    ensures { test_tree result
        ≡ or_form (literal_in (test_tree left.value)) (sure_in (test_tree left.value)) (literal_in (test_tree right.value))
        (test_tree left.value) (test_tree right.value) (or_at id sure (test_tree left.value) (test_tree right.value)) }
{
    match kept_of_or(literal(&left), left.sure, literal(&right)) {
        Kept::Left => Box::into_inner(left),
        Kept::Right => Box::into_inner(right),
        Kept::Both => Test {
            id,
            sure,
            kind: TestKind::Or(left, right),
        },
    }
}

/// The test by its mark.
pub(crate) fn marked(mark: Mark, test: Test) -> Test
    ensures { test_tree result ≡ marked_test mark (test_tree test) }
{
    match mark {
        Mark::Unreached => test,
        Mark::Number { .. } => test,
        Mark::Test { truth, flagged } => answered(truth, flagged, test),
    }
}

/// The test by its answer, if it is decided: a truth literal in its place, or the test, sure of the answer, where it can fault.
fn answered(answer: Option<bool>, flagged: bool, test: Test) -> Test
    ensures { test_tree result ≡ test_answered answer flagged (test_tree test) }
{
    match answer {
        None => test,
        Some(answer) => {
            if flagged {
                told(test, answer)
            } else {
                truth(test.id, answer)
            }
        }
    }
}

/// The test, sure of this answer in place of any other.
fn told(mut test: Test, answer: bool) -> Test
    ensures { test_tree result ≡ told_test answer (test_tree test) }
{
    test.sure = Some(answer);
    test
}

/// A truth literal.
fn truth(id: u32, answer: bool) -> Test
    ensures { test_tree result ≡ truth_at id None answer }
{
    Test {
        id,
        sure: None,
        kind: TestKind::Truth(answer),
    }
}

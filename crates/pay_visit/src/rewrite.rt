//! The walk that changes trees in place.

ghost use Rattle.std.specs.Prelude.{◌≡◌};
ghost use Rattle.pay_tree.specs.OwnedViews.{number_tree, test_tree, step_tree, steps_tree};
ghost use Rattle.pay_visit.specs.Keeping.{AreFinished};
ghost use Rattle.pay_visit.specs.Rewriting.{rewritten_number, rewritten_test, rewritten_step, rewritten_steps};

use pay_tree::{Node, NodeKind, Step, Test, TestKind};

/// A pass that changes trees in place, part by part, each after its own parts.
///
/// It says what becomes of a part (`change`), when a new tree keeps an old one (`keeps`) and when a tree is finished (`finished`). It proves that
/// each tree keeps itself, that what keeps a tree that keeps a third keeps the third, and that a tree keeps another of its form where its parts keep
/// those of the other; that what becomes of a tree keeps it; and that what becomes of a tree whose parts are finished is finished.
pub trait Rewriter {
    ghost use Rattle.pay_tree.specs.OwnedViews.{number_tree, test_tree, step_tree};
    ghost use Rattle.pay_visit.specs.Rewriting.{Change};
    ghost use Rattle.pay_visit.specs.Keeping.{Finished, IsPromise, Keeps};

    ghost change: { Self → Change };

    ghost keeps: { Self → Keeps };

    ghost finished: { Self → Finished };

    /// Changes a number whose sides are done.
    fn node(&self, node: &mut Node)
        ensures { number_tree node.new ≡ (change self.now).number (number_tree node.old) };

    /// Changes a test whose sides are done.
    fn test(&self, test: &mut Test)
        ensures { test_tree test.new ≡ (change self.now).test (test_tree test.old) };

    /// Changes a step whose parts are done.
    fn step(&self, step: &mut Step)
        ensures { step_tree step.new ≡ (change self.now).step (step_tree step.old) };

    ghost promise: { (with : Self) → IsPromise (change with) (keeps with) (finished with) };
}

/// Calls the rewriter on every part of a number, each after its own parts.
pub fn rewrite_node<R: Rewriter>(with: &R, node: &mut Node)
    ensures changed { number_tree node.new ≡ rewritten_number (R.change with.now) (number_tree node.old) }
    ensures kept { (R.keeps with.now).numbers (number_tree node.new) (number_tree node.old) }
    ensures finished { (R.finished with.now).number (number_tree node.new) }
{
    change_node(with, node);
}

/// Changes every part of a number.
fn change_node<R: Rewriter>(with: &R, node: &mut Node)
    ensures changed { number_tree node.new ≡ rewritten_number (R.change with.now) (number_tree node.old) }
{
    match &mut node.kind {
        NodeKind::Number(_) => {}
        NodeKind::Slot(_) => {}
        NodeKind::Spot => {}
        NodeKind::Unary(_, side) => change_node(with, side),
        NodeKind::Binary(_, left, right) => {
            change_node(with, left);
            change_node(with, right);
        }
    }
    with.node(node);
}

/// Calls the rewriter on every part of a test, each after its own parts.
pub fn rewrite_test<R: Rewriter>(with: &R, test: &mut Test)
    ensures changed { test_tree test.new ≡ rewritten_test (R.change with.now) (test_tree test.old) }
    ensures kept { (R.keeps with.now).tests (test_tree test.new) (test_tree test.old) }
    ensures finished { (R.finished with.now).test (test_tree test.new) }
{
    change_test(with, test);
}

/// Changes every part of a test.
fn change_test<R: Rewriter>(with: &R, test: &mut Test)
    ensures changed { test_tree test.new ≡ rewritten_test (R.change with.now) (test_tree test.old) }
{
    match &mut test.kind {
        TestKind::Truth(_) => {}
        TestKind::Compare { left, right, .. } => {
            change_node(with, left);
            change_node(with, right);
        }
        TestKind::Not(side) => change_test(with, side),
        TestKind::And(left, right) => {
            change_test(with, left);
            change_test(with, right);
        }
        TestKind::Or(left, right) => {
            change_test(with, left);
            change_test(with, right);
        }
    }
    with.test(test);
}

/// Calls the rewriter on every part of the steps, each after its own parts.
pub fn rewrite_steps<R: Rewriter>(with: &R, steps: &mut Vec<Step>)
    ensures changed { steps_tree steps.new.items ≡ rewritten_steps (R.change with.now) (steps_tree steps.old.items) }
    ensures kept { (R.keeps with.now).steps (steps_tree steps.new.items) (steps_tree steps.old.items) }
    ensures finished { AreFinished (R.finished with.now) (steps_tree steps.new.items) }
{
    change_steps(with, steps);
}

/// Changes every part of the steps.
#[cycle(steps)]
fn change_steps<R: Rewriter>(with: &R, steps: &mut Vec<Step>)
    ensures changed { steps_tree steps.new.items ≡ rewritten_steps (R.change with.now) (steps_tree steps.old.items) }
{
    for step in steps.iter_mut() {
        change_step(with, step);
    }
}

/// Changes every part of a step.
#[cycle(steps)]
fn change_step<R: Rewriter>(with: &R, step: &mut Step)
    ensures changed { step_tree step.new ≡ rewritten_step (R.change with.now) (step_tree step.old) }
{
    match step {
        Step::Assign { value, .. } => change_node(with, value),
        Step::Pay { amount, .. } => change_node(with, amount),
        Step::If { test, yes, no, .. } => {
            change_test(with, test);
            change_steps(with, yes);
            change_steps(with, no);
        }
        Step::Group(steps) => change_steps(with, steps),
    }
    with.step(step);
}

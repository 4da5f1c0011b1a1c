//! The walk that shows trees part by part.

ghost use Rattle.std.specs.Prelude.{◌++◌, List, OnOk, OnErr};
ghost use Rattle.pay_tree.specs.OwnedViews.{number_tree, test_tree, step_tree, steps_tree};
ghost use Rattle.pay_visit.specs.Showing.{parts_of_number, parts_of_test, parts_of_step, parts_of_steps, ShowedFront, TreePart};

use pay_fixed::NoMemory;
use pay_tree::{Node, NodeKind, Step, Test, TestKind};

/// A pass that is shown trees part by part, in the order of the text.
///
/// It says which parts it has seen (`seen`). A part that it is shown is one more, unless there was no memory.
pub trait Observer {
    ghost use Rattle.std.specs.Prelude.{◌∷◌, [], ◌++◌, List, OnOk, OnErr};
    ghost use Rattle.pay_tree.specs.OwnedViews.{number_tree, test_tree, step_tree};
    ghost use Rattle.pay_visit.specs.Showing.{TreePart, a_number_at, a_test_at, a_step_of};

    ghost seen: { Self → List TreePart → Type 0 };

    /// Is shown a number.
    ///
    /// # Errors
    ///
    /// [`NoMemory`] where there was no memory; the number is then not seen.
    fn node(&mut self, node: &Node) -> Result<(), NoMemory>
        ensures ok { (before : List TreePart) → seen self.old before
            → OnOk result (seen self.new (before ++ (a_number_at (number_tree node.now) ∷ []))) }
        ensures fault { (before : List TreePart) → seen self.old before → OnErr result (seen self.new before) };

    /// Is shown a test.
    ///
    /// # Errors
    ///
    /// [`NoMemory`] where there was no memory; the test is then not seen.
    fn test(&mut self, test: &Test) -> Result<(), NoMemory>
        ensures ok { (before : List TreePart) → seen self.old before
            → OnOk result (seen self.new (before ++ (a_test_at (test_tree test.now) ∷ []))) }
        ensures fault { (before : List TreePart) → seen self.old before → OnErr result (seen self.new before) };

    /// Is shown a step.
    ///
    /// # Errors
    ///
    /// [`NoMemory`] where there was no memory; the step is then not seen.
    fn step(&mut self, step: &Step) -> Result<(), NoMemory>
        ensures ok { (before : List TreePart) → seen self.old before
            → OnOk result (seen self.new (before ++ (a_step_of (step_tree step.now) ∷ []))) }
        ensures fault { (before : List TreePart) → seen self.old before → OnErr result (seen self.new before) };
}

/// Shows the observer every step, test and number of the steps, in the order of the text: a step or a test before its own parts.
///
/// # Errors
///
/// [`NoMemory`] where the observer had no memory; it has then seen a front of the parts.
pub fn observe_steps<O: Observer>(with: &mut O, steps: &[Step]) -> Result<(), NoMemory>
    ensures ok { (before : List TreePart) → O.seen with.old before
        → OnOk result (O.seen with.new (before ++ parts_of_steps (steps_tree steps.now))) }
    ensures fault { (before : List TreePart) → O.seen with.old before
        → OnErr result (ShowedFront (O.seen with.new) before (parts_of_steps (steps_tree steps.now))) }
{
    for step in steps {
        observe_step(with, step)?;
    }
    Ok(())
}

/// Shows the observer the steps of a branch or a group.
#[cycle(steps)]
fn observe_branch<O: Observer>(with: &mut O, steps: &Vec<Step>) -> Result<(), NoMemory>
    ensures ok { (before : List TreePart) → O.seen with.old before
        → OnOk result (O.seen with.new (before ++ parts_of_steps (steps_tree steps.now.items))) }
    ensures fault { (before : List TreePart) → O.seen with.old before
        → OnErr result (ShowedFront (O.seen with.new) before (parts_of_steps (steps_tree steps.now.items))) }
{
    for step in steps {
        observe_step(with, step)?;
    }
    Ok(())
}

/// Shows the observer a step, and then its parts.
#[cycle(steps)]
fn observe_step<O: Observer>(with: &mut O, step: &Step) -> Result<(), NoMemory>
    ensures ok { (before : List TreePart) → O.seen with.old before
        → OnOk result (O.seen with.new (before ++ parts_of_step (step_tree step.now))) }
    ensures fault { (before : List TreePart) → O.seen with.old before
        → OnErr result (ShowedFront (O.seen with.new) before (parts_of_step (step_tree step.now))) }
{
    with.step(step)?;
    match step {
        Step::Assign { value, .. } => observe_node(with, value),
        Step::Pay { amount, .. } => observe_node(with, amount),
        Step::If { test, yes, no, .. } => {
            observe_test(with, test)?;
            observe_branch(with, yes)?;
            observe_branch(with, no)
        }
        Step::Group(steps) => observe_branch(with, steps),
    }
}

/// Shows the observer a test, and then its parts.
fn observe_test<O: Observer>(with: &mut O, test: &Test) -> Result<(), NoMemory>
    ensures ok { (before : List TreePart) → O.seen with.old before
        → OnOk result (O.seen with.new (before ++ parts_of_test (test_tree test.now))) }
    ensures fault { (before : List TreePart) → O.seen with.old before
        → OnErr result (ShowedFront (O.seen with.new) before (parts_of_test (test_tree test.now))) }
{
    with.test(test)?;
    match &test.kind {
        TestKind::Truth(_) => Ok(()),
        TestKind::Compare { left, right, .. } => {
            observe_node(with, left)?;
            observe_node(with, right)
        }
        TestKind::Not(side) => observe_test(with, side),
        TestKind::And(left, right) => {
            observe_test(with, left)?;
            observe_test(with, right)
        }
        TestKind::Or(left, right) => {
            observe_test(with, left)?;
            observe_test(with, right)
        }
    }
}

/// Shows the observer a number, and then its parts.
fn observe_node<O: Observer>(with: &mut O, node: &Node) -> Result<(), NoMemory>
    ensures ok { (before : List TreePart) → O.seen with.old before
        → OnOk result (O.seen with.new (before ++ parts_of_number (number_tree node.now))) }
    ensures fault { (before : List TreePart) → O.seen with.old before
        → OnErr result (ShowedFront (O.seen with.new) before (parts_of_number (number_tree node.now))) }
{
    with.node(node)?;
    match &node.kind {
        NodeKind::Number(_) => Ok(()),
        NodeKind::Slot(_) => Ok(()),
        NodeKind::Spot => Ok(()),
        NodeKind::Unary(_, side) => observe_node(with, side),
        NodeKind::Binary(_, left, right) => {
            observe_node(with, left)?;
            observe_node(with, right)
        }
    }
}

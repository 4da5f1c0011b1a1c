//! A step whose parts are pruned, by the form of its test.

ghost use Rattle.std.specs.Prelude.{◌≡◌};
ghost use Rattle.pay_simplified.specs.Pruning.{choice_form, literal_in, pruned_step, sure_in};
ghost use Rattle.pay_tree.specs.OwnedViews.{step_tree, steps_tree, test_tree};

use crate::form::literal;
use pay_tree::{Step, Test};

/// The step by the form of its test, if it has one.
pub(crate) fn pruned_step(step: Step) -> Step
    ensures { step_tree result ≡ pruned_step (step_tree step) }
{
    match step {
        Step::Assign { slot, value } => Step::Assign { slot, value },
        Step::Pay { leg, amount } => Step::Pay { leg, amount },
        Step::If {
            test,
            yes,
            no,
            changes,
        } => chosen(test, yes, no, changes),
        Step::Group(steps) => Step::Group(steps),
    }
}

/// The choice, or the group of the branch that is taken; where the test is asked for its fault alone, the other branch is empty.
fn chosen(test: Test, mut yes: Vec<Step>, mut no: Vec<Step>, changes: Vec<u32>) -> Step
    ensures { step_tree result
        ≡ choice_form (literal_in (test_tree test)) (sure_in (test_tree test)) (test_tree test) (steps_tree yes.items) (steps_tree no.items) changes.items }
{
    match literal(&test) {
        Some(true) => return Step::Group(yes),
        Some(false) => return Step::Group(no),
        None => match test.sure {
            Some(true) => no.clear(),
            Some(false) => yes.clear(),
            None => {}
        },
    }
    Step::If {
        test,
        yes,
        no,
        changes,
    }
}

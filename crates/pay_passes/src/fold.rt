//! Constants folded.

ghost use Rattle.std.specs.Prelude.{◌≡◌};
ghost use Rattle.pay_meaning.specs.Meaning as meant;
ghost use Rattle.pay_passes.specs.Folding.{answer_of, AreFolded, constant_of, folded_steps, literal_of, SameMeaning, settled_of, signed_raw};
ghost use Rattle.pay_tree.specs.OwnedViews.{number_tree, steps_tree, test_tree};
ghost use Rattle.pay_tree.specs.Views as view;

use pay_fixed::Fixed;
use pay_tree::{Binary, Compare, Node, NodeKind, Step, Test, TestKind, Unary};
use pay_visit::{Rewriter, rewrite_steps};

/// The pass that folds constants.
struct Folder;

impl Rewriter for Folder {
    ghost use Rattle.pay_passes.specs.Folding.{Folded, folding, SameMeaning};
    ghost use Rattle.pay_passes.specs.FoldingPromise.{folding_promise};

    ghost change = { λ with. folding };

    ghost keeps = { λ with. SameMeaning };

    ghost finished = { λ with. Folded };

    fn node(&self, node: &mut Node) {
        if let Some(raw) = constant(node) {
            node.kind = NodeKind::Number(raw);
        }
    }

    fn test(&self, test: &mut Test) {
        if let Some(answer) = settled(test) {
            test.kind = TestKind::Truth(answer);
        }
    }

    fn step(&self, _: &mut Step) {}

    ghost promise = { λ with. folding_promise };
}

/// The number of an operator of literals, unless it faults.
fn constant(node: &Node) -> Option<Fixed>
    ensures { result ≡ constant_of (number_tree node.now) }
{
    match &node.kind {
        NodeKind::Unary(op, side) => Some(signed(*op, literal(side)?)),
        NodeKind::Binary(op, left, right) => calculated(*op, literal(left)?, literal(right)?),
        NodeKind::Number(_) => None,
        NodeKind::Slot(_) => None,
        NodeKind::Spot => None,
    }
}

/// The truth of a comparison of two literals.
fn settled(test: &Test) -> Option<bool>
    ensures { result ≡ settled_of (test_tree test.now) }
{
    match &test.kind {
        TestKind::Compare {
            op,
            left,
            right,
            ..
        } => Some(compared(*op, literal(left)?, literal(right)?)),
        TestKind::Truth(_) => None,
        TestKind::Not(_) => None,
        TestKind::And(_, _) => None,
        TestKind::Or(_, _) => None,
    }
}

/// The number of a literal.
fn literal(node: &Node) -> Option<Fixed>
    ensures { result ≡ literal_of (number_tree node.now) }
{
    match &node.kind {
        NodeKind::Number(raw) => Some(*raw),
        NodeKind::Slot(_) => None,
        NodeKind::Spot => None,
        NodeKind::Unary(_, _) => None,
        NodeKind::Binary(_, _, _) => None,
    }
}

/// A number under an operator.
fn signed(op: Unary, number: Fixed) -> Fixed
    ensures { result ≡ signed_raw op number }
{
    match op {
        Unary::Neg => number.neg(),
        Unary::Abs => number.abs(),
    }
}

/// The number of two numbers under an operator, unless it faults.
fn calculated(op: Binary, left: Fixed, right: Fixed) -> Option<Fixed>
    ensures { result ≡ answer_of (meant.calculated (view.operator op) left right) }
{
    match op {
        Binary::Add => left.add(right).ok(),
        Binary::Sub => left.sub(right).ok(),
        Binary::Mul => left.mul(right).ok(),
        Binary::Div => left.div(right).ok(),
        Binary::Min => Some(left.min(right)),
        Binary::Max => Some(left.max(right)),
    }
}

/// Whether two numbers compare so.
fn compared(op: Compare, left: Fixed, right: Fixed) -> bool
    ensures { result ≡ meant.compared (view.comparison op) left right }
{
    match op {
        Compare::Less => left < right,
        Compare::LessEq => left <= right,
        Compare::More => left > right,
        Compare::MoreEq => left >= right,
        Compare::Same => left == right,
        Compare::Differs => left != right,
    }
}

/// Replaces each operator of literals by its value, unless it faults, and each comparison of two literals by its truth. All else stays, with its
/// place, and no step is added or taken away. It takes no memory.
pub fn fold_constants(steps: &mut Vec<Step>)
    ensures folded { steps_tree steps.new.items ≡ folded_steps (steps_tree steps.old.items) }
    ensures same { SameMeaning.steps (steps_tree steps.new.items) (steps_tree steps.old.items) }
    ensures finished { AreFolded (steps_tree steps.new.items) }
{
    rewrite_steps(&Folder, steps);
}

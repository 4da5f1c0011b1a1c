//! The walk that prunes an event.

ghost use Rattle.std.specs.Prelude.{◌≡◌};
ghost use Rattle.pay_analysis.specs.Marks.{marks_at};
ghost use Rattle.pay_prune.specs.Pruned.{pruned_by};
ghost use Rattle.pay_simplified.specs.Pruning.{number_at_point};
ghost use Rattle.pay_tree.specs.OwnedViews.{event_tree, number_tree};

use crate::choice::pruned_step;
use crate::test::{marked, tidied};
use pay_analysis::{Mark, Marks};
use pay_fixed::Fixed;
use pay_tree::{Event, Node, NodeKind, Step, Test, TestKind};
use pay_visit::{Rewriter, rewrite_steps};
use std::mem;

/// The pass that prunes by marks.
///
/// What a part becomes follows from its mark and from the forms of its sides, and any marks may be there: with wrong ones a pruned tree has nothing in
/// common with the old one. So it promises no more than what becomes of each part.
#[derive(Drop)]
struct Pruner<'a> {
    /// The marks.
    marks: &'a Marks,
}

impl Rewriter for Pruner<'_> {
    ghost use Rattle.pay_analysis.specs.Marks.{marks_at};
    ghost use Rattle.pay_prune.specs.PruningPromise.{any_finished, any_keeps, pruning_promise};
    ghost use Rattle.pay_simplified.specs.Pruning.{pruning};

    ghost change = { λ with. pruning (marks_at with.marks.now.marks.items) };

    ghost keeps = { λ with. any_keeps };

    ghost finished = { λ with. any_finished };

    fn node(&self, node: &mut Node) {
        match mark_at(self.marks, node.id) {
            Mark::Number { point } => put_point(node, point),
            Mark::Unreached => {}
            Mark::Test { .. } => {}
        }
    }

    fn test(&self, test: &mut Test) {
        let mark = mark_at(self.marks, test.id);
        let blank = Test {
            id: 0,
            sure: None,
            kind: TestKind::Truth(false),
        };
        let old = mem::replace(test, blank);
        *test = marked(mark, tidied(old));
    }

    fn step(&self, step: &mut Step) {
        let spot = Node {
            id: 0,
            kind: NodeKind::Spot,
        };
        let blank = Step::Assign {
            slot: 0,
            value: spot,
        };
        let old = mem::replace(step, blank);
        *step = pruned_step(old);
    }

    ghost promise = { λ with. pruning_promise (marks_at with.marks.now.marks.items) };
}

/// The mark of the part with this id.
fn mark_at(marks: &Marks, id: u32) -> Mark
    ensures { result ≡ marks_at marks.now.marks.items id }
{
    marks
        .marks
        .get(id as usize)
        .copied()
        .unwrap_or(Mark::Unreached)
}

/// The number becomes the literal of this raw in its place, if there is one.
fn put_point(node: &mut Node, point: Option<Fixed>)
    ensures { number_tree node.new ≡ number_at_point point (number_tree node.old) }
{
    if let Some(raw) = point {
        node.kind = NodeKind::Number(raw);
    }
}

/// Prunes an event by the marks of its parts: a number that can have one raw alone, without a fault, becomes that literal; a test that is decided
/// becomes its truth literal, or is sure of its truth where it can fault; `not`, `and` and `or` go where the form of a side tells the answer or adds
/// nothing to it; and a choice becomes the group of the branch that is taken, or keeps its test, for the fault, and that branch alone. A part that is not
/// reached stays as it is. It takes no memory.
///
/// Each part has the id that it had. The lists of the variables that choices change stay as they are: fill them in again afterwards.
pub fn prune_event(event: &mut Event, marks: &Marks)
    ensures changed { event_tree event.new ≡ pruned_by (marks_at marks.now.marks.items) (event_tree event.old) }
{
    rewrite_steps(&Pruner { marks }, &mut event.steps);
}

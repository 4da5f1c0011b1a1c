//! Copies of events.

ghost use Rattle.std.specs.Prelude.{◌≡◌, IfOk};
ghost use Rattle.pay_tree.specs.OwnedViews as view;

use crate::owned::{Event, Node, NodeKind, Step, Test, TestKind};
use pay_fixed::NoMemory;
use std::alloc::Global;

/// The same event once more, in memory of `alloc`.
///
/// # Errors
///
/// [`NoMemory`] where there was no memory for it.
pub fn copy_event(alloc: Global, event: &Event) -> Result<Event, NoMemory>
    ensures { IfOk result (λ copy. view.event_tree copy ≡ view.event_tree event.now) }
{
    Ok(Event {
        date: event.date,
        period: event.period,
        days: event.days,
        steps: copy_steps(alloc, &event.steps)?,
    })
}

/// The same steps once more.
#[cycle(steps)]
fn copy_steps(alloc: Global, steps: &Vec<Step>) -> Result<Vec<Step>, NoMemory>
    ensures { IfOk result (λ copy. view.steps_tree copy.items ≡ view.steps_tree steps.now.items) }
{
    let mut copy = Vec::new(alloc);
    for step in steps {
        copy.push(copy_step(alloc, step)?)?;
    }
    Ok(copy)
}

/// The same step once more.
#[cycle(steps)]
fn copy_step(alloc: Global, step: &Step) -> Result<Step, NoMemory>
    ensures { IfOk result (λ copy. view.step_tree copy ≡ view.step_tree step.now) }
{
    match step {
        Step::Assign { slot, value } => Ok(Step::Assign {
            slot: *slot,
            value: copy_node(alloc, value)?,
        }),
        Step::Pay { leg, amount } => Ok(Step::Pay {
            leg: *leg,
            amount: copy_node(alloc, amount)?,
        }),
        Step::If {
            test,
            yes,
            no,
            changes,
        } => Ok(Step::If {
            test: copy_test(alloc, test)?,
            yes: copy_steps(alloc, yes)?,
            no: copy_steps(alloc, no)?,
            changes: copy_slots(alloc, changes)?,
        }),
        Step::Group(steps) => Ok(Step::Group(copy_steps(alloc, steps)?)),
    }
}

/// The same numbers of variables once more.
fn copy_slots(alloc: Global, slots: &Vec<u32>) -> Result<Vec<u32>, NoMemory>
    ensures { IfOk result (λ copy. copy.items ≡ slots.now.items) }
{
    let mut copy = Vec::new(alloc);
    copy.extend_from_slice(slots)?;
    Ok(copy)
}

/// The same test once more.
fn copy_test(alloc: Global, test: &Test) -> Result<Test, NoMemory>
    ensures { IfOk result (λ copy. view.test_tree copy ≡ view.test_tree test.now) }
{
    let kind = match &test.kind {
        TestKind::Truth(answer) => TestKind::Truth(*answer),
        TestKind::Compare {
            op,
            left,
            right,
            smooth,
        } => TestKind::Compare {
            op: *op,
            left: Box::new(alloc, copy_node(alloc, left)?)?,
            right: Box::new(alloc, copy_node(alloc, right)?)?,
            smooth: *smooth,
        },
        TestKind::Not(side) => TestKind::Not(Box::new(alloc, copy_test(alloc, side)?)?),
        TestKind::And(left, right) => {
            let left = Box::new(alloc, copy_test(alloc, left)?)?;
            let right = Box::new(alloc, copy_test(alloc, right)?)?;
            TestKind::And(left, right)
        }
        TestKind::Or(left, right) => {
            let left = Box::new(alloc, copy_test(alloc, left)?)?;
            let right = Box::new(alloc, copy_test(alloc, right)?)?;
            TestKind::Or(left, right)
        }
    };
    Ok(Test {
        id: test.id,
        sure: test.sure,
        kind,
    })
}

/// The same number once more.
fn copy_node(alloc: Global, node: &Node) -> Result<Node, NoMemory>
    ensures { IfOk result (λ copy. view.number_tree copy ≡ view.number_tree node.now) }
{
    let kind = match &node.kind {
        NodeKind::Number(literal) => NodeKind::Number(*literal),
        NodeKind::Slot(slot) => NodeKind::Slot(*slot),
        NodeKind::Spot => NodeKind::Spot,
        NodeKind::Unary(op, side) => NodeKind::Unary(
            *op,
            Box::new(alloc, copy_node(alloc, side)?)?,
        ),
        NodeKind::Binary(op, left, right) => {
            let left = Box::new(alloc, copy_node(alloc, left)?)?;
            let right = Box::new(alloc, copy_node(alloc, right)?)?;
            NodeKind::Binary(*op, left, right)
        }
    };
    Ok(Node { id: node.id, kind })
}

//! The variables that steps assign.

ghost use Rattle.std.specs.Prelude.{◌≡◌, ℕ, nat_eq, ◌||◌, [], IfOk, OnOk, OnErr};
ghost use Rattle.std.specs.List.Sorted.{IsStrictlySortedBy};
ghost use Rattle.std.specs.Ordering.{nat_cmp};
ghost use Rattle.pay_passes.specs.Changes.{affected_of, changed_by, filled_step, filled_steps, rising, AreSomeFilled, SomeFilled};
ghost use Rattle.pay_passes.specs.Gathering.{has};
ghost use Rattle.pay_tree.specs.OwnedViews.{step_tree, steps_tree};

use pay_fixed::NoMemory;
use pay_tree::{Node, Step, Test};
use pay_visit::{Observer, observe_steps};
use std::alloc::Global;
use std::collections::BTreeSet;

/// The numbers of the variables that the steps so far assign.
#[derive(Drop)]
struct Assigned {
    slots: BTreeSet<u32>,
}

impl Observer for Assigned {
    ghost use Rattle.pay_passes.specs.Gathering.{assigned_by_parts, HaveSame};

    ghost seen = { λ self parts. HaveSame self.slots.keys (assigned_by_parts parts) };

    fn node(&mut self, _node: &Node) -> Result<(), NoMemory> {
        Ok(())
    }

    fn test(&mut self, _test: &Test) -> Result<(), NoMemory> {
        Ok(())
    }

    fn step(&mut self, step: &Step) -> Result<(), NoMemory> {
        match step {
            Step::Assign { slot, .. } => add_slot(&mut self.slots, *slot),
            Step::Pay { .. } => Ok(()),
            Step::If { .. } => Ok(()),
            Step::Group(_) => Ok(()),
        }
    }
}

/// Puts a number among others.
fn add_slot(slots: &mut BTreeSet<u32>, slot: u32) -> Result<(), NoMemory>
    ensures added { OnOk result ((other : ℕ) → has slots.new.keys other ≡ (nat_eq slot other || has slots.old.keys other)) }
    ensures kept { OnErr result (slots.new.keys ≡ slots.old.keys) }
{
    slots.insert(slot)?;
    Ok(())
}

/// No variable is assigned yet.
fn none_assigned(alloc: Global) -> Assigned
    ensures { result.slots.keys ≡ [] }
{
    Assigned {
        slots: BTreeSet::new(alloc),
    }
}

/// The numbers, rising.
fn in_order(alloc: Global, assigned: Assigned) -> Result<Vec<u32>, NoMemory>
    ensures { IfOk result (λ slots. slots.items ≡ rising assigned.slots.keys) }
{
    listed(alloc, assigned.slots)
}

/// The numbers of a set in its order, which rise.
fn listed(alloc: Global, slots: BTreeSet<u32>) -> Result<Vec<u32>, NoMemory>
    ensures listed { IfOk result (λ list. list.items ≡ slots.keys) }
    ensures rise { IsStrictlySortedBy nat_cmp slots.keys }
{
    Ok(slots.into_iter().collect(alloc)?)
}

/// The numbers of the variables that some of the steps assign, rising, each once.
///
/// # Errors
///
/// [`NoMemory`] where there was no memory for them.
pub fn affected(alloc: Global, steps: &[Step]) -> Result<Vec<u32>, NoMemory>
    ensures { IfOk result (λ slots. slots.items ≡ affected_of (steps_tree steps.now)) }
{
    let mut seen = none_assigned(alloc);
    observe_steps(&mut seen, steps)?;
    in_order(alloc, seen)
}

/// The numbers of the variables that one of two branches assigns, rising, each once.
fn changed(alloc: Global, yes: &[Step], no: &[Step]) -> Result<Vec<u32>, NoMemory>
    ensures { IfOk result (λ slots. slots.items ≡ changed_by (steps_tree yes.now) (steps_tree no.now)) }
{
    let mut seen = none_assigned(alloc);
    observe_steps(&mut seen, yes)?;
    observe_steps(&mut seen, no)?;
    in_order(alloc, seen)
}

/// Sets the variables of each `if` to those that its two branches assign.
///
/// # Errors
///
/// [`NoMemory`] where there was no memory for them. Those of some `if`s may then be set; nothing else is changed.
#[cycle(fill)]
pub fn fill_changes(alloc: Global, steps: &mut Vec<Step>) -> Result<(), NoMemory>
    ensures filled { OnOk result (steps_tree steps.new.items ≡ filled_steps (steps_tree steps.old.items)) }
    ensures partly { OnErr result (AreSomeFilled (steps_tree steps.new.items) (steps_tree steps.old.items)) }
{
    for step in steps.iter_mut() {
        fill_step(alloc, step)?;
    }
    Ok(())
}

/// Sets the variables of each `if` of a step, its inner ones first.
#[cycle(fill)]
fn fill_step(alloc: Global, step: &mut Step) -> Result<(), NoMemory>
    ensures filled { OnOk result (step_tree step.new ≡ filled_step (step_tree step.old)) }
    ensures partly { OnErr result (SomeFilled (step_tree step.new) (step_tree step.old)) }
{
    match step {
        Step::Assign { .. } => {}
        Step::Pay { .. } => {}
        Step::If {
            yes,
            no,
            changes,
            ..
        } => {
            fill_changes(alloc, yes)?;
            fill_changes(alloc, no)?;
            *changes = changed(alloc, yes, no)?;
        }
        Step::Group(steps) => fill_changes(alloc, steps)?,
    }
    Ok(())
}

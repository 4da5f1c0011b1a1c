//! The walk over the steps of an event.

ghost use Rattle.std.specs.Prelude.{◌≡◌, ◌&&◌, false, length, IfOk, OnOk};
ghost use Rattle.pay_code.specs.Filled.{AreFilledSteps, IsFilled};
ghost use Rattle.pay_facts.specs.Reached.{step_parts, steps_parts, test_parts};
ghost use Rattle.pay_facts.specs.SlotFacts.{after_step, after_steps, decide_by_slots};
ghost use Rattle.pay_tree.specs.OwnedViews.{step_tree, steps_tree, test_tree};
ghost use Rattle.pay_analysis.specs.Marks.{marked, marks_at, no_marks};
ghost use Rattle.pay_analysis.specs.Walking.{slot_facts, all_joined_with, all_put, domains_of, put_out, AreAllRaws, AreDomains};

use crate::branches::{Kept, assign, exchange, join, keep};
use crate::facts::Facts;
use crate::marks::{Mark, Marks};
use crate::walk_number::walk_number;
use crate::walk_test::walk_test;
use pay_fixed::NoMemory;
use pay_tree::{Event, Step, Test};
use std::alloc::Global;

/// Goes through an event: `facts`, those before it, become those after it, and each number and test that a run can evaluate has its mark. Whether the
/// fixing was known to be there before the event has no part in it: its date is another one. Each choice of the event lists the variables that its
/// branches assign, and the raws of the variables lie within the limit of a number.
///
/// # Errors
///
/// [`NoMemory`] where there was no memory; the facts say nothing then.
pub fn walk_event(alloc: Global, event: &Event, facts: &mut Facts) -> Result<Marks, NoMemory>
    requires filled { AreFilledSteps (steps_tree event.now.steps.items) }
    requires domains { AreDomains facts.now.domains.items }
    requires limits { AreAllRaws facts.now.domains.items }
    ensures facts { OnOk result (slot_facts facts.new ≡ after_steps (steps_tree event.now.steps.items) facts.old.domains.items false) }
    ensures marks { IfOk result (λ result. marks_at result.marks.items
        ≡ marked no_marks (steps_parts (steps_tree event.now.steps.items) facts.old.domains.items false)) }
    ensures count { OnOk result (length facts.new.domains.items ≡ length facts.old.domains.items) }
    ensures domains { OnOk result (AreDomains facts.new.domains.items) }
    ensures limits { OnOk result (AreAllRaws facts.new.domains.items) }
{
    let mut marks = Vec::new(alloc);
    facts.known = false;
    walk_steps(alloc, &event.steps, facts, &mut marks)?;
    Ok(Marks { marks })
}

/// Goes through steps: the facts become those after them, and the parts that are reached are marked.
#[cycle(steps)]
fn walk_steps(
    alloc: Global,
    steps: &Vec<Step>,
    facts: &mut Facts,
    marks: &mut Vec<Mark>,
) -> Result<(), NoMemory>
    requires filled { AreFilledSteps (steps_tree steps.now.items) }
    requires domains { AreDomains facts.now.domains.items }
    requires limits { AreAllRaws facts.now.domains.items }
    ensures facts { OnOk result (slot_facts facts.new ≡ after_steps (steps_tree steps.now.items) facts.old.domains.items facts.old.known) }
    ensures marks { OnOk result (marks_at marks.new.items
        ≡ marked (marks_at marks.old.items) (steps_parts (steps_tree steps.now.items) facts.old.domains.items facts.old.known)) }
    ensures limits { OnOk result (AreAllRaws facts.new.domains.items) }
{
    for step in steps {
        walk_step(alloc, step, facts, marks)?;
    }
    Ok(())
}

/// Goes through a step.
#[cycle(steps)]
fn walk_step(
    alloc: Global,
    step: &Step,
    facts: &mut Facts,
    marks: &mut Vec<Mark>,
) -> Result<(), NoMemory>
    requires filled { IsFilled (step_tree step.now) }
    requires domains { AreDomains facts.now.domains.items }
    requires limits { AreAllRaws facts.now.domains.items }
    ensures facts { OnOk result (slot_facts facts.new ≡ after_step (step_tree step.now) facts.old.domains.items facts.old.known) }
    ensures marks { OnOk result (marks_at marks.new.items
        ≡ marked (marks_at marks.old.items) (step_parts (step_tree step.now) facts.old.domains.items facts.old.known)) }
    ensures limits { OnOk result (AreAllRaws facts.new.domains.items) }
{
    match step {
        Step::Assign { slot, value } => {
            let range = walk_number(alloc, value, &facts.domains, facts.known, marks)?;
            assign(facts, *slot, range);
            Ok(())
        }
        Step::Pay { amount, .. } => {
            let range = walk_number(alloc, amount, &facts.domains, facts.known, marks)?;
            facts.known = range.known;
            Ok(())
        }
        Step::If {
            test,
            yes,
            no,
            changes,
        } => {
            let answer = walk_condition(alloc, test, facts, marks)?;
            match answer {
                Some(true) => walk_steps(alloc, yes, facts, marks),
                Some(false) => walk_steps(alloc, no, facts, marks),
                None => {
                    let kept = walk_first(alloc, yes, changes, facts, marks)?;
                    walk_other(alloc, no, changes, facts, kept, marks)
                }
            }
        }
        Step::Group(steps) => walk_steps(alloc, steps, facts, marks),
    }
}

/// Goes through the first branch of a choice, and answers what is kept of the facts before it.
#[cycle(steps)]
fn walk_first(
    alloc: Global,
    steps: &Vec<Step>,
    changes: &Vec<u32>,
    facts: &mut Facts,
    marks: &mut Vec<Mark>,
) -> Result<Kept, NoMemory>
    requires filled { AreFilledSteps (steps_tree steps.now.items) }
    requires domains { AreDomains facts.now.domains.items }
    requires limits { AreAllRaws facts.now.domains.items }
    ensures kept { IfOk result (λ kept. kept.domains.items ≡ domains_of facts.old.domains.items changes.now.items) }
    ensures known { IfOk result (λ kept. kept.known ≡ facts.old.known) }
    ensures facts { OnOk result (slot_facts facts.new ≡ after_steps (steps_tree steps.now.items) facts.old.domains.items facts.old.known) }
    ensures marks { OnOk result (marks_at marks.new.items
        ≡ marked (marks_at marks.old.items) (steps_parts (steps_tree steps.now.items) facts.old.domains.items facts.old.known)) }
    ensures limits { OnOk result (AreAllRaws facts.new.domains.items) }
{
    let kept = keep(alloc, facts, changes)?;
    walk_steps(alloc, steps, facts, marks)?;
    Ok(kept)
}

/// Goes through the other branch of a choice, from the facts that were kept before the first one; the facts become those of both branches.
#[cycle(steps)]
fn walk_other(
    alloc: Global,
    steps: &Vec<Step>,
    changes: &Vec<u32>,
    facts: &mut Facts,
    mut kept: Kept,
    marks: &mut Vec<Mark>,
) -> Result<(), NoMemory>
    requires filled { AreFilledSteps (steps_tree steps.now.items) }
    requires one_each { length kept.domains.items ≡ length changes.now.items }
    requires domains { AreDomains (all_put facts.now.domains.items changes.now.items kept.domains.items) }
    requires limits { AreAllRaws (all_put facts.now.domains.items changes.now.items kept.domains.items) }
    requires kept_limits { AreAllRaws (put_out facts.now.domains.items changes.now.items kept.domains.items) }
    ensures domains { OnOk result (facts.new.domains.items ≡ all_joined_with
        (after_steps (steps_tree steps.now.items) (all_put facts.old.domains.items changes.now.items kept.domains.items) kept.known).domains
        changes.now.items (put_out facts.old.domains.items changes.now.items kept.domains.items)) }
    ensures known { OnOk result (facts.new.known ≡ (facts.old.known
        && (after_steps (steps_tree steps.now.items) (all_put facts.old.domains.items changes.now.items kept.domains.items) kept.known).known)) }
    ensures marks { OnOk result (marks_at marks.new.items ≡ marked (marks_at marks.old.items)
        (steps_parts (steps_tree steps.now.items) (all_put facts.old.domains.items changes.now.items kept.domains.items) kept.known)) }
    ensures limits { OnOk result (AreAllRaws facts.new.domains.items) }
{
    exchange(facts, changes, &mut kept);
    walk_steps(alloc, steps, facts, marks)?;
    join(facts, changes, kept)
}

/// Goes through the test of a choice: the facts become those after it, and the answer is its truth where that is decided.
fn walk_condition(
    alloc: Global,
    test: &Test,
    facts: &mut Facts,
    marks: &mut Vec<Mark>,
) -> Result<Option<bool>, NoMemory>
    requires { AreAllRaws facts.now.domains.items }
    ensures answer { IfOk result (λ answer. answer ≡ (decide_by_slots (test_tree test.now) facts.old.domains.items facts.old.known).answer) }
    ensures domains { facts.new.domains.items ≡ facts.old.domains.items }
    ensures known { OnOk result (facts.new.known ≡ (decide_by_slots (test_tree test.now) facts.old.domains.items facts.old.known).known) }
    ensures marks { OnOk result (marks_at marks.new.items
        ≡ marked (marks_at marks.old.items) (test_parts (test_tree test.now) facts.old.domains.items facts.old.known)) }
{
    let decision = walk_test(alloc, test, &facts.domains, facts.known, marks)?;
    facts.known = decision.known;
    Ok(decision.answer)
}

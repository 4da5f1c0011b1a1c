//! An event simplified by what is known before it.

ghost use Rattle.std.specs.Prelude.{◌≡◌, IfOk, OnOk, length};
ghost use Rattle.pay_analysis.specs.Walking.{AreAllRaws, AreDomains};
ghost use Rattle.pay_code.specs.Filled.{AreFilledSteps};
ghost use Rattle.pay_prune.specs.Simplifying.{after_simplified, simplified_event};
ghost use Rattle.pay_simplified.specs.Pruning.{filled_event};
ghost use Rattle.pay_tree.specs.OwnedViews.{event_tree, steps_tree};

use crate::prune::prune_event;
use pay_analysis::{Facts, walk_event};
use pay_fixed::NoMemory;
use pay_passes::fill_changes;
use pay_tree::{Event, copy_event};
use std::alloc::Global;

/// A copy of an event, simplified: pruned by what is known before it, with the variables that each `if` that is left changes. `facts`, those before
/// the event, become those after it. The compiler lowers what `explain` shows, since both take it from here.
///
/// # Errors
///
/// [`NoMemory`] where there was no memory; the facts say nothing then.
pub fn simplify_event(alloc: Global, event: &Event, facts: &mut Facts) -> Result<Event, NoMemory>
    requires domains { AreDomains facts.now.domains.items }
    requires limits { AreAllRaws facts.now.domains.items }
    ensures event { IfOk result (λ left. event_tree left ≡ simplified_event (event_tree event.now) facts.old.domains.items) }
    ensures after { OnOk result (facts.new.domains.items ≡ after_simplified (event_tree event.now) facts.old.domains.items) }
    ensures count { OnOk result (length facts.new.domains.items ≡ length facts.old.domains.items) }
    ensures domains { OnOk result (AreDomains facts.new.domains.items) }
    ensures limits { OnOk result (AreAllRaws facts.new.domains.items) }
{
    let mut left = filled(alloc, event)?;
    let marks = walk_event(alloc, &left, facts)?;
    prune_event(&mut left, &marks);
    fill_changes(alloc, &mut left.steps)?;
    Ok(left)
}

/// A copy of an event with the variables that each `if` changes, which the walk needs.
#[tactic(auto, using(pay_simplified::proofs::FillingLemmas::steps_are_filled))]
fn filled(alloc: Global, event: &Event) -> Result<Event, NoMemory>
    ensures event { IfOk result (λ copy. event_tree copy ≡ filled_event (event_tree event.now)) }
    ensures filled { IfOk result (λ copy. AreFilledSteps (steps_tree copy.steps.items)) }
{
    let mut copy = copy_event(alloc, event)?;
    fill_changes(alloc, &mut copy.steps)?;
    Ok(copy)
}

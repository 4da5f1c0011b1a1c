//! What is said of an event.

ghost use Rattle.std.specs.Prelude.{◌≡◌, false, ◌<◌, ◌+◌, ◌++◌, drop, length, IfOk, OnOk};
ghost use Rattle.pay_passes.specs.Trades.{trees_of};
ghost use Rattle.pay_tree.specs.OwnedViews.{event_tree};
ghost use Rattle.pay_explain.specs.Explaining.{after_first, after_tree, explain_trees, first_text, tree_text, zero_domains};
ghost use Rattle.pay_explain.specs.Known.{AreKnown};

use crate::text::{write_domain_lines, write_heading};
use pay_analysis::Facts;
use pay_domains::Domain;
use pay_fixed::NoMemory;
use pay_passes::Trade;
use pay_print::print_steps;
use pay_prune::simplify_event;
use pay_tree::{Event, Name};
use std::alloc::Global;

/// What is known before the first event of a trade: each variable is 0, and the fixing isn't known to be there.
///
/// # Errors
///
/// [`NoMemory`] where there was no memory.
#[tactic(auto, using(crate::proofs::ExplainLemmas::zero_more, crate::proofs::ExplainLemmas::zero_none, std::proofs::Common::append_assoc))]
pub fn fresh_facts(alloc: Global, trade: &Trade) -> Result<Facts, NoMemory>
    ensures zero { IfOk result (λ facts. facts.domains.items ≡ zero_domains trade.now.names.items) }
    ensures known { IfOk result (λ facts. AreKnown trade.now.names.items facts.domains.items) }
    ensures fixing { IfOk result (λ facts. facts.known ≡ false) }
{
    let mut domains = Vec::with_capacity(alloc, trade.names.len())?;
    for _ in &trade.names {
        domains.push(Domain::point(alloc, 0)?)?;
    }
    Ok(Facts {
        domains,
        known: false,
    })
}

/// What is said of the event at the place `at`, from 0, of a trade: its line, its simplified steps, and then a line for each variable. `facts`, those
/// before the event, become those after it.
///
/// # Errors
///
/// [`NoMemory`] where there was no memory; the facts say nothing then.
#[tactic(auto, using(crate::proofs::ExplainLemmas::event_here))]
pub fn explain_event(
    alloc: Global,
    trade: &Trade,
    at: u32,
    facts: &mut Facts,
) -> Result<Vec<u8>, NoMemory>
    requires event { at < length trade.now.events.items }
    requires known { AreKnown trade.now.names.items facts.now.domains.items }
    ensures text { IfOk result (λ text. text.items
        ≡ first_text trade.now.names.items trade.now.legs.items (drop at (trees_of trade.now)) facts.old.domains.items) }
    ensures after { OnOk result (facts.new.domains.items ≡ after_first (drop at (trees_of trade.now)) facts.old.domains.items) }
    ensures onward { IfOk result (λ text.
        explain_trees trade.now.names.items trade.now.legs.items (drop at (trees_of trade.now)) facts.old.domains.items
        ≡ text.items ++ explain_trees trade.now.names.items trade.now.legs.items (drop (at + 1) (trees_of trade.now)) facts.new.domains.items) }
    ensures known { OnOk result (AreKnown trade.now.names.items facts.new.domains.items) }
{
    explain(
        alloc,
        trade.names.as_slice(),
        trade.legs.as_slice(),
        &trade.events[at as usize],
        facts,
    )
}

/// What is said of an event, whose variables and legs have these names.
#[tactic(auto, using(std::proofs::Common::append_assoc, pay_simplified::proofs::FillingLemmas::filled_after))]
fn explain(
    alloc: Global,
    names: &[Name],
    legs: &[Name],
    event: &Event,
    facts: &mut Facts,
) -> Result<Vec<u8>, NoMemory>
    requires known { AreKnown names.now facts.now.domains.items }
    ensures text { IfOk result (λ text. text.items ≡ tree_text names.now legs.now (event_tree event.now) facts.old.domains.items) }
    ensures after { OnOk result (facts.new.domains.items ≡ after_tree (event_tree event.now) facts.old.domains.items) }
    ensures known { OnOk result (AreKnown names.now facts.new.domains.items) }
{
    let left = simplify_event(alloc, event, facts)?;
    let mut text = Vec::new(alloc);
    write_heading(alloc, event, &mut text)?;
    let lines = print_steps(alloc, left.steps.as_slice(), names, legs, 1)?;
    text.extend_from_slice(&lines)?;
    write_domain_lines(names, facts.domains.as_slice(), &mut text)?;
    Ok(text)
}

//! Variables and legs by number.

ghost use Rattle.std.specs.Prelude.{◌≡◌, ◌≤◌, true, IfOk, IfErr, OnOk, None, Some, length, map};
ghost use Rattle.pay_meaning.specs.Events.{events_of};
ghost use Rattle.pay_meaning.specs.Parts.{as_leg, as_variable, event_parts, names_of};
ghost use Rattle.pay_passes.specs.Indexing.{index_refusal, IsRefusalOf, refusal_beyond};
ghost use Rattle.pay_passes.specs.Numbering.{are_written, HaveOwnNumbers, numbered_event};
ghost use Rattle.pay_passes.specs.Terms.{at_own_terms};
ghost use Rattle.pay_passes.specs.Trades.{AreCounted, IsGood, spelled_trade, trees_of};
ghost use Rattle.pay_roll.specs.Rolling.{roll_refusal};
ghost use Rattle.pay_tree.specs.OwnedViews.{event_tree};
ghost use Rattle.pay_tree.specs.Views as view;

use crate::names::NameNumbers;
use crate::numbered::{Numbers, numbered_events};
use crate::trade::{IndexRefusal, Trade};
use pay_fixed::NoMemory;
use pay_roll::What;
use pay_tree::{Event, Name, NamedEvent, Script, legs, variables};
use std::alloc::Global;

/// The most different variables.
const MOST_VARIABLES: u32 = 1_024;

/// The most different legs.
const MOST_LEGS: u32 = 256;

/// The trade of a script, whose events these are: each variable and each leg is its number by first appearance in the script's text, `period()` and
/// `days()` are literals, and the numbers and tests of each event are counted from 0 in the order of the text.
///
/// The events have to be those that `roll` gives for the script.
///
/// # Errors
///
/// The first of these that there is a cause for. [`IndexRefusal::TooMany`] where the script has more than 1,024 variables, and then where it has
/// more than 256 legs. [`IndexRefusal::NoMemory`] where there was no memory.
pub fn index(alloc: Global, script: &Script, events: Vec<NamedEvent>) -> Result<Trade, IndexRefusal>
    requires accepted { roll_refusal (view.script script.now) ≡ None }
    requires rolled { map view.event events.items ≡ events_of (view.script script.now) }
    ensures names { IfOk result (λ trade. trade.names.items ≡ names_of as_variable (view.script script.now)) }
    ensures legs { IfOk result (λ trade. trade.legs.items ≡ names_of as_leg (view.script script.now)) }
    ensures spelled { IfOk result (λ trade. spelled_trade trade ≡ map at_own_terms (events_of (view.script script.now))) }
    ensures counted { IfOk result (λ trade. AreCounted (trees_of trade)) }
    ensures good { IfOk result IsGood }
    ensures accepted { IfOk result (λ trade. index_refusal (view.script script.now) ≡ None) }
    ensures refused { IfErr result (IsRefusalOf (view.script script.now)) }
{
    let names = variables(alloc, script)?;
    check_count(What::Variables, MOST_VARIABLES, &names)?;
    let legs = legs(alloc, script)?;
    check_count(What::Legs, MOST_LEGS, &legs)?;
    let events = numbered(alloc, &events, &names, &legs)?;
    Ok(Trade {
        names,
        legs,
        events,
    })
}

/// Refuses more names than so many.
fn check_count(what: What, limit: u32, names: &Vec<Name>) -> Result<(), IndexRefusal>
    ensures within { OnOk result (length names.now.items ≤ limit) }
    ensures refused { IfErr result (λ refusal. refusal_beyond what limit (length names.now.items) ≡ Some refusal) }
{
    if names.len() <= limit as usize {
        Ok(())
    } else {
        Err(IndexRefusal::TooMany { what, limit })
    }
}

/// The events with the numbers of these names.
fn numbered<'a>(
    alloc: Global,
    events: &'a Vec<NamedEvent>,
    names: &'a Vec<Name>,
    legs: &'a Vec<Name>,
) -> Result<Vec<Event>, NoMemory>
    requires few_names { length names.now.items ≤ 1024 }
    requires few_legs { length legs.now.items ≤ 256 }
    requires own_names { HaveOwnNumbers names.now.items }
    requires own_legs { HaveOwnNumbers legs.now.items }
    requires room { length (event_parts (map view.event events.now.items)) ≤ 262_144 }
    ensures events { IfOk result (λ made. map event_tree made.items
        ≡ map (numbered_event names.now.items legs.now.items) (map view.event events.now.items)) }
    ensures written { OnOk result (are_written (map view.event events.now.items) ≡ true) }
{
    let numbers = Numbers {
        variables: NameNumbers::new(alloc, names)?,
        legs: NameNumbers::new(alloc, legs)?,
    };
    numbered_events(alloc, events, &numbers)
}

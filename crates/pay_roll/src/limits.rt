//! The limits of a script's events together.

ghost use Rattle.std.specs.Prelude.{◌≡◌, length, map};
ghost use Rattle.pay_meaning.specs.Parts.{event_parts, payment_count};
ghost use Rattle.pay_roll.specs.Plans.{planned};
ghost use Rattle.pay_roll.specs.Rolling.{event_refusals, first_of, refusal_beyond};
ghost use Rattle.pay_tree.specs.Sizes.{up_to};

use crate::order::first_shared_date;
use crate::plan::PlannedEvent;
use crate::refusal::{RollRefusal, What};
use pay_tree::{pays, size};

/// The most nodes: numbers, conditions and statements.
const MOST_NODES: u32 = 262_144;

/// The most payments.
const MOST_PAYS: u32 = 16_384;

/// What events in order of date are refused for, if they are: a date that two of them share, then nodes, then payments.
pub fn refusal_of(events: &[PlannedEvent<'_>]) -> Option<RollRefusal>
    ensures { result ≡ first_of (event_refusals (map planned events.now)) }
{
    if let Some(date) = first_shared_date(events) {
        return Some(RollRefusal::SameDate { date });
    }
    if let Some(refusal) = refusal_of_nodes(events) {
        return Some(refusal);
    }
    refusal_of_payments(events)
}

/// The refusal of more nodes than there may be, if there are.
#[tactic(auto, using(crate::proofs::CountLemmas::beyond_up_to))]
fn refusal_of_nodes(events: &[PlannedEvent<'_>]) -> Option<RollRefusal>
    ensures { result ≡ refusal_beyond What.Nodes 262_144 (length (event_parts (map planned events.now))) }
{
    refusal_beyond(What::Nodes, MOST_NODES, node_count(events))
}

/// The refusal of more payments than there may be, if there are.
#[tactic(auto, using(crate::proofs::CountLemmas::beyond_up_to))]
fn refusal_of_payments(events: &[PlannedEvent<'_>]) -> Option<RollRefusal>
    ensures { result ≡ refusal_beyond What.Pays 16_384 (payment_count (event_parts (map planned events.now))) }
{
    refusal_beyond(What::Pays, MOST_PAYS, payment_count(events))
}

/// The refusal of more than so many, if there are.
fn refusal_beyond(what: What, limit: u32, count: u64) -> Option<RollRefusal>
    ensures { result ≡ refusal_beyond what limit count }
{
    if count <= limit as u64 {
        None
    } else {
        Some(RollRefusal::TooMany { what, limit })
    }
}

/// How many nodes the events have together, or 262,145 where there are more than 262,144: no body is counted after that.
#[tactic(auto, using(crate::proofs::CountLemmas::more_nodes))]
fn node_count(events: &[PlannedEvent<'_>]) -> u64
    ensures { result ≡ up_to 262_144 (length (event_parts (map planned events.now))) }
{
    let mut count = 0;
    for event in events {
        count += size(event.body);
        if count > MOST_NODES as u64 {
            return MOST_NODES as u64 + 1;
        }
    }
    count
}

/// How many payments the events have together, or 16,385 where there are more than 16,384: no body is counted after that.
#[tactic(auto, using(crate::proofs::CountLemmas::more_payments))]
fn payment_count(events: &[PlannedEvent<'_>]) -> u64
    ensures { result ≡ up_to 16_384 (payment_count (event_parts (map planned events.now))) }
{
    let mut count = 0;
    for event in events {
        count += pays(event.body);
        if count > MOST_PAYS as u64 {
            return MOST_PAYS as u64 + 1;
        }
    }
    count
}

//! A script's events in order of date.

ghost use Rattle.std.specs.Prelude.{◌≡◌, ◌<◌, ◌^◌, None, IfOk, IfErr, length, map};
ghost use Rattle.pay_meaning.specs.Events.{events_of};
ghost use Rattle.pay_roll.specs.Plans.{planned};
ghost use Rattle.pay_roll.specs.Rolling.{roll_refusal, IsRefusalOf};
ghost use Rattle.pay_tree.specs.Views as view;

use crate::limits::refusal_of;
use crate::order::sort_by_date;
use crate::plan::{PlannedEvent, first_bad, planned_events};
use crate::refusal::RollRefusal;
use pay_fixed::NoMemory;
use pay_tree::{NamedEvent, Script, copy_body};
use std::alloc::Global;

/// The events of a script in order of date, each with a copy of its item's statements.
///
/// # Errors
///
/// The first of these that there is a cause for. [`RollRefusal::BadSchedule`] with the first item whose schedule is bad;
/// [`RollRefusal::TooMany`] where there are more than 4,096 events; [`RollRefusal::SameDate`] with the earliest date that two of
/// them share; [`RollRefusal::TooMany`] where the events together have more than 262,144 nodes, and then where they have more than
/// 16,384 payments. [`RollRefusal::NoMemory`] where there was no memory.
pub fn roll(alloc: Global, script: &Script) -> Result<Vec<NamedEvent>, RollRefusal>
    requires { length script.now.items.items < 2 ^ 32 }
    ensures events { IfOk result (λ events. map view.event events.items ≡ events_of (view.script script.now)) }
    ensures accepted { IfOk result (λ events. roll_refusal (view.script script.now) ≡ None) }
    ensures refused { IfErr result (IsRefusalOf (view.script script.now)) }
{
    if let Some(item) = first_bad(&script.items) {
        return Err(RollRefusal::BadSchedule { item });
    }
    let mut events = planned_events(alloc, &script.items)?;
    sort_by_date(&mut events)?;
    if let Some(refusal) = refusal_of(&events) {
        return Err(refusal);
    }
    Ok(copies(alloc, &events)?)
}

/// The events with copies of their statements.
fn copies(alloc: Global, events: &[PlannedEvent<'_>]) -> Result<Vec<NamedEvent>, NoMemory>
    ensures { IfOk result (λ copies. map view.event copies.items ≡ map planned events.now) }
{
    let mut copies = Vec::new(alloc);
    for one in events {
        copies.push(copy(alloc, one)?)?;
    }
    Ok(copies)
}

/// An event with a copy of its statements.
fn copy(alloc: Global, event: &PlannedEvent<'_>) -> Result<NamedEvent, NoMemory>
    ensures { IfOk result (λ copy. view.event copy ≡ planned event.now) }
{
    let body = copy_body(alloc, event.body)?;
    Ok(NamedEvent {
        date: event.roll.date,
        period: event.roll.period,
        days: event.roll.days,
        body,
    })
}

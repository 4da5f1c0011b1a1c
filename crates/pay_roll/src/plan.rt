//! The events of a script before their statements are copied.

ghost use Rattle.std.specs.Prelude.{◌≡◌, ◌<◌, ◌≤◌, ◌^◌, ◌++◌, ◌∷◌, [], ◌&&◌, int_lt, nat_le, None, false, IfOk, IfErr, OnOk};
ghost use Rattle.std.specs.Prelude.{length, map};
ghost use Rattle.pay_dates.specs.Days.{day_number};
ghost use Rattle.pay_meaning.specs.Events.{all_events, events_in, rolled_event};
ghost use Rattle.pay_roll.specs.Plans.{planned, IsPlanRefusal};
ghost use Rattle.pay_roll.specs.Rolling.{first_bad, is_bad};
ghost use Rattle.pay_tree.specs.Views as view;

use crate::refusal::{RollRefusal, What};
use pay_dates::{Day, Roll, RollFault, roll_dates};
use pay_fixed::NoMemory;
use pay_tree::{Item, Stmt};
use std::alloc::Global;

/// The most events.
const MOST_EVENTS: u32 = 4_096;

/// An event whose statements are not copied yet.
#[derive(Clone, Copy)]
pub struct PlannedEvent<'a> {
    /// Its date, the number of its step and the days since the date of the step before; in a plain item both are 0.
    pub roll: Roll,
    /// The statements of its item.
    pub body: &'a [Stmt],
}

/// Whether these terms are a schedule's: the first date comes before the last, and a step has 1 to 999 units.
fn is_schedule(first: Day, last: Day, every: u64) -> bool
    ensures { result ≡ (int_lt (day_number first) (day_number last) && nat_le 1 every && nat_le every 999) }
{
    first.number() < last.number() && 1 <= every && every <= 999
}

/// Whether an item is a schedule that is bad.
fn is_bad(item: &Item) -> bool
    ensures { result ≡ is_bad (view.item item.now) }
{
    match item {
        Item::Plain { .. } => false,
        Item::Schedule {
            first,
            last,
            every,
            ..
        } => !is_schedule(*first, *last, *every),
    }
}

/// The number, from 1, of the first item whose schedule is bad.
pub fn first_bad(items: &[Item]) -> Option<u32>
    requires { length items.now < 2 ^ 32 }
    ensures { result ≡ first_bad 1 (map view.item items.now) }
{
    let mut number = 0;
    for item in items {
        number += 1;
        if is_bad(item) {
            return Some(number);
        }
    }
    None
}

/// Adds an event with these statements for each of these rolls.
fn add_rolls<'a>(
    events: &mut Vec<PlannedEvent<'a>>,
    rolls: &[Roll],
    body: &'a [Stmt],
) -> Result<(), NoMemory>
    ensures { OnOk result (map planned events.new.items ≡ map planned events.old.items ++ map (rolled_event (view.body body.now)) rolls.now) }
{
    for roll in rolls {
        add_event(events, *roll, body)?;
    }
    Ok(())
}

/// Adds an event.
fn add_event<'a>(
    events: &mut Vec<PlannedEvent<'a>>,
    roll: Roll,
    body: &'a [Stmt],
) -> Result<(), NoMemory>
    ensures { OnOk result (map planned events.new.items ≡ map planned events.old.items ++ rolled_event (view.body body.now) roll ∷ []) }
{
    match events.push(PlannedEvent { roll, body }) {
        Ok(()) => Ok(()),
        Err(_) => Err(NoMemory),
    }
}

/// Adds the events of an item.
fn add_item<'a>(
    alloc: Global,
    events: &mut Vec<PlannedEvent<'a>>,
    item: &'a Item,
) -> Result<(), RollRefusal>
    requires { is_bad (view.item item.now) ≡ false }
    ensures added { OnOk result (map planned events.new.items ≡ map planned events.old.items ++ events_in (view.item item.now)) }
    ensures refused { IfErr result (IsPlanRefusal (events_in (view.item item.now))) }
{
    match item {
        Item::Plain { date, body } => {
            let roll = Roll {
                date: *date,
                period: 0,
                days: 0,
            };
            add_rolls(events, &[roll], body)?;
            Ok(())
        }
        Item::Schedule {
            first,
            last,
            every,
            unit,
            rule,
            body,
        } => {
            match roll_dates(alloc, *first, *last, *every, *unit, *rule) {
                Ok(rolls) => {
                    add_rolls(events, &rolls, body)?;
                    Ok(())
                }
                Err(RollFault::BadSchedule) => unreachable!(),
                Err(RollFault::TooMany) => Err(too_many_events()),
                Err(RollFault::NoMemory) => Err(RollRefusal::NoMemory),
            }
        }
    }
}

/// The refusal of more events than there may be.
fn too_many_events() -> RollRefusal
    ensures { result ≡ RollRefusal.TooMany What.Events 4096 }
{
    RollRefusal::TooMany {
        what: What::Events,
        limit: MOST_EVENTS,
    }
}

/// The events of items, in the order of the items.
///
/// # Errors
///
/// [`RollRefusal::TooMany`] where there are more than 4,096 of them; [`RollRefusal::NoMemory`] where there was no memory for them.
pub fn planned_events(alloc: Global, items: &[Item]) -> Result<Vec<PlannedEvent<'_>>, RollRefusal>
    requires { first_bad 1 (map view.item items.now) ≡ None }
    ensures events { IfOk result (λ events. map planned events.items ≡ all_events (map view.item items.now)) }
    ensures few { IfOk result (λ events. length events.items ≤ 4096) }
    ensures refused { IfErr result (IsPlanRefusal (all_events (map view.item items.now))) }
{
    let mut events = Vec::new(alloc);
    for item in items {
        add_item(alloc, &mut events, item)?;
        if events.len() > MOST_EVENTS as usize {
            return Err(too_many_events());
        }
    }
    Ok(events)
}

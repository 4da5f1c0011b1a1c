//! Planned events in order of date.

ghost use Rattle.std.specs.Prelude.{◌≡◌, OnOk, map};
ghost use Rattle.pay_meaning.specs.Events.{in_order, shared_date, shares_with_next};
ghost use Rattle.pay_roll.specs.Plans.{planned};

use crate::plan::PlannedEvent;
use pay_dates::Day;
use pay_fixed::NoMemory;

/// Puts events in order of date.
pub fn sort_by_date(events: &mut Vec<PlannedEvent<'_>>) -> Result<(), NoMemory>
    ensures { OnOk result (map planned events.new.items ≡ in_order (map planned events.old.items)) }
{
    events.sort_by_key(|event| event.roll.date.number())?;
    Ok(())
}

/// Whether the next of these events is on the same date.
fn shares_with_next(first: &PlannedEvent<'_>, rest: &[PlannedEvent<'_>]) -> bool
    ensures { result ≡ shares_with_next (planned first.now) (map planned rest.now) }
{
    match rest {
        [] => false,
        [following, ..] => first.roll.date.number() == following.roll.date.number(),
    }
}

/// The date of the first two neighbours that have one date.
pub fn first_shared_date(events: &[PlannedEvent<'_>]) -> Option<Day>
    ensures { result ≡ shared_date (map planned events.now) }
{
    let mut rest = events;
    while let [first, tail @ ..] = rest {
        if shares_with_next(first, tail) {
            return Some(first.roll.date);
        }
        rest = tail;
    }
    None
}

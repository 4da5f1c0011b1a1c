//! The events of a program: those of a trade up to a date, simplified.

ghost use Rattle.std.specs.Prelude.{◌≡◌, IfOk, map};
ghost use Rattle.pay_compile.specs.Compiling.{is_until};
ghost use Rattle.pay_compile.specs.Prepared.{kept_until, prepared_from};
ghost use Rattle.pay_domains.specs.Pieces.{point};
ghost use Rattle.pay_tree.specs.OwnedViews.{event_tree};

use pay_analysis::Facts;
use pay_dates::Day;
use pay_fixed::{Fixed, NoMemory};
use pay_prune::simplify_event;
use pay_tree::Event;
use std::alloc::Global;

/// Copies of the events that are not after `until`, or of all of them, each simplified: from variables that have these values before the first of them.
///
/// # Errors
///
/// [`NoMemory`] where there was no memory for them.
pub fn prepared_events(
    alloc: Global,
    events: &Vec<Event>,
    until: Option<Day>,
    values: &[Fixed],
) -> Result<Vec<Event>, NoMemory>
    ensures { IfOk result (λ copies. map event_tree copies.items
        ≡ prepared_from (kept_until until (map event_tree events.now.items)) (map point values.now)) }
{
    let mut facts = Facts::start(alloc, values)?;
    let mut copies = Vec::new(alloc);
    for event in events {
        if is_until(until, event.date) {
            copies.push(simplify_event(alloc, event, &mut facts)?)?;
        }
    }
    Ok(copies)
}

/// Whether a date is not after `until`, where there is one.
fn is_until(until: Option<Day>, date: Day) -> bool
    ensures { result ≡ is_until until date }
{
    match until {
        None => true,
        Some(last) => date <= last,
    }
}

//! Where a schedule begins, and where it ends.

ghost use Rattle.std.specs.Prelude.{◌≡◌, [], ◌∷◌, Some};
ghost use Rattle.pay_grammar.specs.Reading as reading;
ghost use Rattle.pay_place.specs.ReadingViews as view;
ghost use Rattle.pay_place.specs.ReadingViews.{Gives};

use crate::statements::closed;
use pay_place::{
    Block, Frame, Heading, Mode, Owner, Stack, State, StepFault, Terms, between_items, block_of,
    script_of,
};
use pay_tree::{Item, Stmt};
use std::alloc::Global;

/// The state after `schedule`, which stands after these items.
pub fn begun_schedule(alloc: Global, items: Vec<Item>) -> State
    ensures { view.state result ≡ reading.state (reading.a_script (view.items items) ∷ []) (reading.heading reading.from_next) }
{
    State {
        stack: between_items(alloc, items),
        mode: Mode::Heading(Heading::From),
    }
}

/// The state after `schedule`.
///
/// # Errors
///
/// `NotScript` where no item can end before it, and `NoMemory` where there was no memory for that item.
pub fn step_schedule(alloc: Global, stack: Stack) -> Result<State, StepFault>
    ensures { Gives view.state result (reading.step_schedule (view.frames stack)) }
{
    let items = closed(stack)?;
    Ok(begun_schedule(alloc, items))
}

/// The state after the end of a schedule, which stands after these items.
///
/// # Errors
///
/// `NoMemory` where there was no memory for the schedule.
pub fn ended_schedule(
    alloc: Global,
    mut items: Vec<Item>,
    terms: Terms,
    body: Vec<Stmt>,
) -> Result<State, StepFault>
    ensures { Gives view.state result (reading.step_end (view.frame (Frame.Body (Owner.Schedule terms) body) ∷ reading.a_script (view.items items) ∷ [])) }
{
    items.push(Item::Schedule {
        first: terms.first,
        last: terms.last,
        every: terms.every,
        unit: terms.unit,
        rule: terms.rule,
        body,
    })?;
    Ok(State {
        stack: between_items(alloc, items),
        mode: Mode::Free,
    })
}

/// The state after the end of a schedule, if what it stands in is a script.
fn with_schedule(
    alloc: Global,
    outer: Stack,
    terms: Terms,
    body: Vec<Stmt>,
) -> Result<State, StepFault>
    ensures { Gives view.state result (reading.step_end (view.frame (Frame.Body (Owner.Schedule terms) body) ∷ view.frames outer)) }
{
    match script_of(outer) {
        Some(items) => ended_schedule(alloc, items, terms, body),
        None => Err(StepFault::NotScript),
    }
}

/// The state after `end`.
///
/// # Errors
///
/// `NotScript` where no schedule ends there, and `NoMemory` where there was no memory for it.
pub fn step_end(alloc: Global, stack: Stack) -> Result<State, StepFault>
    ensures { Gives view.state result (reading.step_end (view.frames stack)) }
{
    match block_of(stack) {
        None => Err(StepFault::NotScript),
        Some(block) => {
            let Block { outer, owner, body } = block;
            match owner {
                Owner::Schedule(terms) => with_schedule(alloc, outer, terms, body),
                other => {
                    drop(other);
                    Err(StepFault::NotScript)
                }
            }
        }
    }
}

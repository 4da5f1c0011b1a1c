//! Events lowered to flat code.

ghost use Rattle.std.specs.Prelude.{◌≡◌, ◌*◌, ◌^◌, ◌<◌, ◌++◌, IfOk, OnOk, length, map};
ghost use Rattle.pay_code.specs.Bounds.{pays_in};
ghost use Rattle.pay_code.specs.Execution.{dates_of};
ghost use Rattle.pay_code.specs.Flat.{event_code, events_code, events_table, steps_table};
ghost use Rattle.pay_code.specs.Programs.{CanBeLowered, StandsFor};
ghost use Rattle.pay_tree.specs.OwnedViews.{event_tree, steps_tree};

use crate::lower_step::lower_steps;
use crate::op::Op;
use crate::program::Program;
use pay_dates::Day;
use pay_fixed::{Fixed, NoMemory};
use pay_tree::Event;
use std::alloc::Global;

/// The program of events, whose variables start from these values; its runs read the smoothings of comparisons where it is `fuzzy`.
///
/// The dates of the events have to rise; their variables are among those of `start`, at most 1,024; each `if` lists the variables that its branches
/// assign; each smoothing is good; and there are at most 4,096 events and 262,144 numbers, tests and steps, groups not counted.
///
/// It recurses as deep as the trees are: the stack has to hold a call for each number, test and step that others stand within.
///
/// # Errors
///
/// [`NoMemory`] where there was no memory for the code.
pub fn lower(
    alloc: Global,
    events: &[Event],
    start: &[Fixed],
    fuzzy: bool,
) -> Result<Program, NoMemory>
    requires { CanBeLowered (map event_tree events.now) (length start.now) }
    ensures stands { IfOk result (λ program. StandsFor program (map event_tree events.now)) }
    ensures start { IfOk result (λ program. program.start ≡ start.now) }
    ensures fuzzy { IfOk result (λ program. program.fuzzy ≡ fuzzy) }
{
    let mut ops = Vec::new(alloc);
    let mut changed = Vec::new(alloc);
    lower_events(&mut ops, &mut changed, events)?;
    check_lengths(&ops, &changed)?;
    let pays = count_pays(&ops);
    Ok(Program {
        ops,
        changed,
        dates: copy_dates(alloc, events)?,
        start: Vec::from_slice(alloc, start)?,
        fuzzy,
        pays,
    })
}

/// Refuses code whose places are no `u32`, and a table whose length is none when it is doubled.
fn check_lengths(ops: &Vec<Op>, changed: &Vec<u32>) -> Result<(), NoMemory>
    ensures ops { OnOk result (length ops.now.items < 2 ^ 32) }
    ensures changed { OnOk result (2 * length changed.now.items < 2 ^ 32) }
{
    if ops.len() <= u32::MAX as usize && changed.len() <= u32::MAX as usize / 2 {
        Ok(())
    } else {
        Err(NoMemory)
    }
}

/// Adds the code of events, and to the table the variables that their choices change.
fn lower_events(ops: &mut Vec<Op>, changed: &mut Vec<u32>, events: &[Event]) -> Result<(), NoMemory>
    ensures code { OnOk result (ops.new.items
        ≡ ops.old.items ++ events_code (length ops.old.items) (length changed.old.items) (map event_tree events.now)) }
    ensures table { OnOk result (changed.new.items ≡ changed.old.items ++ events_table (map event_tree events.now)) }
{
    for event in events {
        lower_event(ops, changed, event)?;
    }
    Ok(())
}

/// Adds the code of an event, and to the table the variables that its choices change.
fn lower_event(ops: &mut Vec<Op>, changed: &mut Vec<u32>, event: &Event) -> Result<(), NoMemory>
    ensures code { OnOk result (ops.new.items
        ≡ ops.old.items ++ event_code (length ops.old.items) (length changed.old.items) (event_tree event.now)) }
    ensures table { OnOk result (changed.new.items ≡ changed.old.items ++ steps_table (steps_tree event.now.steps.items)) }
{
    lower_steps(ops, changed, &event.steps)?;
    ops.push(Op::EndEvent)?;
    Ok(())
}

/// The dates of events, in their order.
fn copy_dates(alloc: Global, events: &[Event]) -> Result<Vec<Day>, NoMemory>
    ensures { IfOk result (λ dates. dates.items ≡ dates_of (map event_tree events.now)) }
{
    let mut dates = Vec::new(alloc);
    for event in events {
        dates.push(event.date)?;
    }
    Ok(dates)
}

/// How many of the operations are payments.
fn count_pays(ops: &Vec<Op>) -> u32
    requires { length ops.now.items < 2 ^ 32 }
    ensures { result ≡ pays_in ops.now.items }
{
    let mut pays = 0;
    for op in ops {
        if let Op::Pay(_) = op {
            pays += 1;
        }
    }
    pays
}

//! Steps and their branches.

ghost use Rattle.std.specs.Prelude.{◌≡◌, ◌++◌, IfOk, OnOk};
ghost use Rattle.pay_print.specs.StepText.{else_lines};
ghost use Rattle.pay_print.specs.TreeText.{has_any, indent_at, opened_step, opened_steps, step_lines, steps_lines};
ghost use Rattle.pay_tree.specs.OwnedViews.{step_tree, steps_tree};
ghost use Rattle.pay_text.specs.Text as text_of;

use crate::lines::{deeper, indent_at, print_choice_line, print_line, print_word_line};
use crate::parts::name_at;
use pay_fixed::NoMemory;
use pay_tree::{Name, Step};
use std::alloc::Global;

/// The lines of steps, where the variables and the legs have these names, further in by two spaces for each of `depth`. An `if` shows the names of the
/// variables in its list of changes, in the order of that list. A number past the end of the names has the empty one.
///
/// # Errors
///
/// [`NoMemory`] where there was no memory for the lines.
pub fn print_steps(
    alloc: Global,
    steps: &[Step],
    names: &[Name],
    legs: &[Name],
    depth: u32,
) -> Result<Vec<u8>, NoMemory>
    ensures { IfOk result (λ lines. lines.items ≡ steps_lines names.now legs.now (indent_at depth) (steps_tree steps.now)) }
{
    let indent = indent_at(alloc, depth)?;
    let mut lines = Vec::new(alloc);
    append_steps(alloc, names, legs, steps, &indent, &mut lines)?;
    Ok(lines)
}

/// Appends the lines of steps; where there is no memory, perhaps a part of them.
#[cycle(steps)]
fn append_steps(
    alloc: Global,
    names: &[Name],
    legs: &[Name],
    steps: &[Step],
    indent: &[u8],
    text: &mut Vec<u8>,
) -> Result<(), NoMemory>
    ensures { OnOk result (text.new.items ≡ text.old.items ++ steps_lines names.now legs.now indent.now (steps_tree steps.now)) }
{
    for step in steps {
        append_step(alloc, names, legs, step, indent, text)?;
    }
    Ok(())
}

/// Appends the lines of a step.
#[cycle(steps)]
fn append_step(
    alloc: Global,
    names: &[Name],
    legs: &[Name],
    step: &Step,
    indent: &[u8],
    text: &mut Vec<u8>,
) -> Result<(), NoMemory>
    ensures { OnOk result (text.new.items ≡ text.old.items ++ step_lines names.now legs.now indent.now (step_tree step.now)) }
{
    match step {
        Step::Assign { slot, value } => print_line(
            indent,
            name_at(names, *slot),
            b" = ",
            names,
            value,
            text,
        ),
        Step::Pay { leg, amount } => print_line(
            indent,
            name_at(legs, *leg),
            b" pays ",
            names,
            amount,
            text,
        ),
        Step::If {
            test,
            yes,
            no,
            changes,
        } => {
            print_choice_line(indent, names, test, changes, text)?;
            let inner = deeper(alloc, indent)?;
            append_steps(alloc, names, legs, yes, &inner, text)?;
            append_else(alloc, names, legs, no, indent, text)?;
            print_word_line(indent, b"endif", text)
        }
        Step::Group(steps) => append_steps(alloc, names, legs, steps, indent, text),
    }
}

/// Appends the line `else` and the lines of the steps after it, if there is a step once groups are opened.
#[cycle(steps)]
fn append_else(
    alloc: Global,
    names: &[Name],
    legs: &[Name],
    steps: &[Step],
    indent: &[u8],
    text: &mut Vec<u8>,
) -> Result<(), NoMemory>
    ensures { OnOk result (text.new.items ≡ text.old.items ++ else_lines indent.now (opened_steps (steps_tree steps.now))
        (steps_lines names.now legs.now (text_of.deeper indent.now) (steps_tree steps.now))) }
{
    if has_step(steps) {
        print_word_line(indent, b"else", text)?;
        let inner = deeper(alloc, indent)?;
        append_steps(alloc, names, legs, steps, &inner, text)?;
    }
    Ok(())
}

/// Whether there is a step once groups are opened.
#[cycle(opened)]
fn has_step(steps: &[Step]) -> bool
    ensures { result ≡ has_any (opened_steps (steps_tree steps.now)) }
{
    for step in steps {
        if is_shown(step) {
            return true;
        }
    }
    false
}

/// Whether a step stands for one, as each does but a group without any.
#[cycle(opened)]
fn is_shown(step: &Step) -> bool
    ensures { result ≡ has_any (opened_step (step_tree step.now)) }
{
    match step {
        Step::Assign { .. } => true,
        Step::Pay { .. } => true,
        Step::If { .. } => true,
        Step::Group(steps) => has_step(steps),
    }
}

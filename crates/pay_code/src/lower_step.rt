//! Steps lowered to flat code.

ghost use Rattle.std.specs.Prelude.{◌≡◌, ◌++◌, OnOk, length};
ghost use Rattle.pay_code.specs.Flat.{step_code, step_table, steps_code, steps_table};
ghost use Rattle.pay_tree.specs.OwnedViews.{step_tree, steps_tree};

use crate::lower_number::lower_number;
use crate::lower_test::lower_test;
use crate::op::Op;
use crate::places::{begin_choice, end_choice, turn_choice};
use pay_fixed::NoMemory;
use pay_tree::Step;

/// Adds the code of steps, and to the table the variables that their choices change.
#[cycle(steps)]
pub fn lower_steps(
    ops: &mut Vec<Op>,
    changed: &mut Vec<u32>,
    steps: &Vec<Step>,
) -> Result<(), NoMemory>
    ensures code { OnOk result (ops.new.items
        ≡ ops.old.items ++ steps_code (length ops.old.items) (length changed.old.items) (steps_tree steps.now.items)) }
    ensures table { OnOk result (changed.new.items ≡ changed.old.items ++ steps_table (steps_tree steps.now.items)) }
{
    for step in steps {
        lower_step(ops, changed, step)?;
    }
    Ok(())
}

/// Adds the code of a step, and to the table the variables that the choices in it change: those of a choice after those of its branches.
#[cycle(steps)]
fn lower_step(ops: &mut Vec<Op>, changed: &mut Vec<u32>, step: &Step) -> Result<(), NoMemory>
    ensures code { OnOk result (ops.new.items
        ≡ ops.old.items ++ step_code (length ops.old.items) (length changed.old.items) (step_tree step.now)) }
    ensures table { OnOk result (changed.new.items ≡ changed.old.items ++ step_table (step_tree step.now)) }
{
    match step {
        Step::Assign { slot, value } => {
            lower_number(ops, value)?;
            ops.push(Op::Assign(*slot))?;
            Ok(())
        }
        Step::Pay { leg, amount } => {
            lower_number(ops, amount)?;
            ops.push(Op::Pay(*leg))?;
            Ok(())
        }
        Step::If {
            test,
            yes,
            no,
            changes,
        } => {
            lower_test(ops, test)?;
            let choice = begin_choice(ops)?;
            lower_steps(ops, changed, yes)?;
            let turn = turn_choice(ops, choice)?;
            lower_steps(ops, changed, no)?;
            end_choice(ops, changed, turn, changes)
        }
        Step::Group(steps) => lower_steps(ops, changed, steps),
    }
}

//! Tests lowered to flat code.

ghost use Rattle.std.specs.Prelude.{◌≡◌, [], ◌++◌, OnOk, length};
ghost use Rattle.pay_code.specs.Flat.{surely_code, test_code};
ghost use Rattle.pay_tree.specs.OwnedViews.{test_tree};

use crate::lower_number::lower_number;
use crate::op::Op;
use crate::places::{begin_and, begin_or, end_and, end_or};
use pay_fixed::NoMemory;
use pay_tree::{Test, TestKind};

/// Adds the code of a test.
pub fn lower_test(ops: &mut Vec<Op>, test: &Test) -> Result<(), NoMemory>
    ensures { OnOk result (ops.new.items ≡ ops.old.items ++ test_code (length ops.old.items) (test_tree test.now)) }
{
    match &test.kind {
        TestKind::Truth(answer) => ops.push(Op::Truth(*answer))?,
        TestKind::Compare {
            op,
            left,
            right,
            smooth,
        } => {
            lower_number(ops, left)?;
            lower_number(ops, right)?;
            ops.push(Op::Compare {
                op: *op,
                smooth: *smooth,
            })?;
        }
        TestKind::Not(side) => {
            lower_test(ops, side)?;
            ops.push(Op::Not)?;
        }
        TestKind::And(left, right) => {
            lower_test(ops, left)?;
            let jump = begin_and(ops)?;
            lower_test(ops, right)?;
            end_and(ops, jump)?;
        }
        TestKind::Or(left, right) => {
            lower_test(ops, left)?;
            let jump = begin_or(ops)?;
            lower_test(ops, right)?;
            end_or(ops, jump)?;
        }
    }
    push_sure(ops, test.sure)
}

/// Adds what a test is sure of, if it is.
fn push_sure(ops: &mut Vec<Op>, sure: Option<bool>) -> Result<(), NoMemory>
    ensures { OnOk result (ops.new.items ≡ ops.old.items ++ surely_code sure []) }
{
    if let Some(answer) = sure {
        ops.push(Op::Sure(answer))?;
    }
    Ok(())
}

//! Numbers lowered to flat code.

ghost use Rattle.std.specs.Prelude.{◌≡◌, ◌++◌, OnOk};
ghost use Rattle.pay_code.specs.Flat.{number_code};
ghost use Rattle.pay_tree.specs.OwnedViews.{number_tree};

use crate::op::Op;
use pay_fixed::NoMemory;
use pay_tree::{Node, NodeKind};

/// Adds the code of a number.
pub fn lower_number(ops: &mut Vec<Op>, node: &Node) -> Result<(), NoMemory>
    ensures { OnOk result (ops.new.items ≡ ops.old.items ++ number_code (number_tree node.now)) }
{
    match &node.kind {
        NodeKind::Number(literal) => ops.push(Op::Number(*literal))?,
        NodeKind::Slot(slot) => ops.push(Op::Slot(*slot))?,
        NodeKind::Spot => ops.push(Op::Spot)?,
        NodeKind::Unary(op, side) => {
            lower_number(ops, side)?;
            ops.push(Op::Unary(*op))?;
        }
        NodeKind::Binary(op, left, right) => {
            lower_number(ops, left)?;
            lower_number(ops, right)?;
            ops.push(Op::Binary(*op))?;
        }
    }
    Ok(())
}

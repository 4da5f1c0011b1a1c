//! The variables that a choice changes, as its operations find them.

ghost use Rattle.std.specs.Prelude.{◌≡◌, ◌+◌, ◌-◌, ◌<◌, drop, length, take};
ghost use Rattle.pay_code.specs.Execution.{changes_from_if, changes_of, op_ahead};

use pay_code::Op;

/// The variables that an `EndIf` names, by the table; other operations name none.
pub(crate) fn changes_of<'a>(table: &'a [u32], op: &Op) -> &'a [u32]
    ensures { result.now ≡ changes_of table.now op.now }
{
    match op {
        Op::EndIf { first, count } => part_of(table, *first as usize, *count as usize),
        _ => &[],
    }
}

/// The variables that the choice changes whose `Else` stands at this place: by the `EndIf` that it names.
pub(crate) fn changes_at_else<'a>(table: &'a [u32], ops: &[Op], at: usize, after: u32) -> &'a [u32]
    requires { at < length ops.now }
    ensures { result.now ≡ changes_of table.now (op_ahead (drop (at + 1) ops.now) (after - (at + 1))) }
{
    match ops.get((after as usize).max(at + 1)) {
        Some(op) => changes_of(table, op),
        None => &[],
    }
}

/// The variables that the choice changes whose `If` stands at this place: by the `Else` before the place that it names.
pub(crate) fn changes_at_if<'a>(table: &'a [u32], ops: &[Op], at: usize, to: u32) -> &'a [u32]
    requires { at < length ops.now }
    ensures { result.now ≡ changes_from_if table.now at (drop (at + 1) ops.now) to }
{
    match ops.get((to as usize).saturating_sub(1).max(at + 1)) {
        Some(Op::Else { after }) => changes_at_else(table, ops, at, *after),
        _ => &[],
    }
}

/// So many entries of the table from this place on, as far as there are.
fn part_of(table: &[u32], first: usize, count: usize) -> &[u32]
    ensures { result.now ≡ take count (drop first table.now) }
{
    let rest = &table[first.min(table.len())..];
    &rest[..count.min(rest.len())]
}

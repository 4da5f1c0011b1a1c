//! Places in flat code that is being made, and operations that are set once the place that they name is known.

ghost use Rattle.std.specs.Prelude.{◌≡◌, ◌+◌, ◌<◌, [], ◌∷◌, ◌++◌, IfOk, OnOk, length, slice_set};
ghost use Rattle.pay_code.specs.declared.op.Op.TheVariants as op;

use crate::op::Op;
use pay_fixed::NoMemory;

/// The place after the operations so far.
fn next_place(ops: &Vec<Op>) -> Result<u32, NoMemory>
    ensures { IfOk result (λ place. place ≡ length ops.now.items) }
{
    u32::try_from(ops.len()).map_err(|_| NoMemory)
}

/// Adds an operation whose target is not known yet, and answers its place.
fn open(ops: &mut Vec<Op>, jump: Op) -> Result<usize, NoMemory>
    ensures added { OnOk result (ops.new.items ≡ ops.old.items ++ (jump ∷ [])) }
    ensures place { IfOk result (λ place. place ≡ length ops.old.items) }
{
    let place = ops.len();
    ops.push(jump)?;
    Ok(place)
}

/// Begins the right side of `and`, and answers the place of its jump, whose target is not known yet.
pub fn begin_and(ops: &mut Vec<Op>) -> Result<usize, NoMemory>
    ensures added { OnOk result (ops.new.items ≡ ops.old.items ++ (op.AndSkip 0 ∷ [])) }
    ensures place { IfOk result (λ place. place ≡ length ops.old.items) }
{
    open(ops, Op::AndSkip { to: 0 })
}

/// Ends an `and` whose jump is there: the jump leads to the place after it.
pub fn end_and(ops: &mut Vec<Op>, jump: usize) -> Result<(), NoMemory>
    requires { jump < length ops.now.items }
    ensures { OnOk result (ops.new.items ≡ slice_set (ops.old.items ++ (op.AndJoin ∷ [])) jump (op.AndSkip (length ops.old.items + 1))) }
{
    ops.push(Op::AndJoin)?;
    let to = next_place(ops)?;
    ops[jump] = Op::AndSkip { to };
    Ok(())
}

/// Begins the right side of `or`, and answers the place of its jump, whose target is not known yet.
pub fn begin_or(ops: &mut Vec<Op>) -> Result<usize, NoMemory>
    ensures added { OnOk result (ops.new.items ≡ ops.old.items ++ (op.OrSkip 0 ∷ [])) }
    ensures place { IfOk result (λ place. place ≡ length ops.old.items) }
{
    open(ops, Op::OrSkip { to: 0 })
}

/// Ends an `or` whose jump is there: the jump leads to the place after it.
pub fn end_or(ops: &mut Vec<Op>, jump: usize) -> Result<(), NoMemory>
    requires { jump < length ops.now.items }
    ensures { OnOk result (ops.new.items ≡ slice_set (ops.old.items ++ (op.OrJoin ∷ [])) jump (op.OrSkip (length ops.old.items + 1))) }
{
    ops.push(Op::OrJoin)?;
    let to = next_place(ops)?;
    ops[jump] = Op::OrSkip { to };
    Ok(())
}

/// Begins a choice, and answers the place of its `If`, which doesn't name its false branch yet.
pub fn begin_choice(ops: &mut Vec<Op>) -> Result<usize, NoMemory>
    ensures added { OnOk result (ops.new.items ≡ ops.old.items ++ (op.If 0 ∷ [])) }
    ensures place { IfOk result (λ place. place ≡ length ops.old.items) }
{
    open(ops, Op::If { other: 0 })
}

/// Begins the false branch of a choice whose `If` is there, and answers the place of its `Else`, which doesn't name the end of the choice yet.
pub fn turn_choice(ops: &mut Vec<Op>, choice: usize) -> Result<usize, NoMemory>
    requires { choice < length ops.now.items }
    ensures added { OnOk result (ops.new.items ≡ slice_set (ops.old.items ++ (op.Else 0 ∷ [])) choice (op.If (length ops.old.items + 1))) }
    ensures place { IfOk result (λ place. place ≡ length ops.old.items) }
{
    let turn = open(ops, Op::Else { after: 0 })?;
    let other = next_place(ops)?;
    ops[choice] = Op::If { other };
    Ok(turn)
}

/// Ends a choice whose `Else` is there, with the variables that it changes, which are added to the table.
pub fn end_choice(
    ops: &mut Vec<Op>,
    changed: &mut Vec<u32>,
    turn: usize,
    changes: &Vec<u32>,
) -> Result<(), NoMemory>
    requires { turn < length ops.now.items }
    ensures code { OnOk result (ops.new.items ≡ slice_set ops.old.items turn (op.Else (length ops.old.items))
        ++ (op.EndIf (length changed.old.items) (length changes.now.items) ∷ [])) }
    ensures table { OnOk result (changed.new.items ≡ changed.old.items ++ changes.now.items) }
{
    let after = next_place(ops)?;
    ops[turn] = Op::Else { after };
    let first = length_of(changed)?;
    let count = length_of(changes)?;
    ops.push(Op::EndIf { first, count })?;
    changed.extend_from_slice(changes)?;
    Ok(())
}

/// How many variables these are.
fn length_of(slots: &Vec<u32>) -> Result<u32, NoMemory>
    ensures { IfOk result (λ count. count ≡ length slots.now.items) }
{
    u32::try_from(slots.len()).map_err(|_| NoMemory)
}

//! Copies of statements.

ghost use Rattle.std.specs.Prelude.{◌≡◌, IfOk};
ghost use Rattle.pay_tree.specs.Views as view;

use crate::tree::{Cond, Expr, Stmt};
use pay_fixed::NoMemory;
use std::alloc::Global;

/// The same statements once more, in memory of `alloc`.
///
/// # Errors
///
/// [`NoMemory`] where there was no memory for them.
#[cycle(statements)]
pub fn copy_body(alloc: Global, body: &[Stmt]) -> Result<Vec<Stmt>, NoMemory>
    ensures { IfOk result (λ copy. view.body copy.items ≡ view.body body.now) }
{
    let mut copy = Vec::new(alloc);
    for statement in body {
        copy.push(copy_statement(alloc, statement)?)?;
    }
    Ok(copy)
}

/// The same statement once more.
#[cycle(statements)]
fn copy_statement(alloc: Global, statement: &Stmt) -> Result<Stmt, NoMemory>
    ensures { IfOk result (λ copy. view.statement copy ≡ view.statement statement.now) }
{
    match statement {
        Stmt::Assign { name, value } => Ok(Stmt::Assign {
            name: name.copy(alloc)?,
            value: copy_number(alloc, value)?,
        }),
        Stmt::Pay { leg, amount } => Ok(Stmt::Pay {
            leg: leg.copy(alloc)?,
            amount: copy_number(alloc, amount)?,
        }),
        Stmt::If { cond, yes, no } => Ok(Stmt::If {
            cond: copy_condition(alloc, cond)?,
            yes: copy_body(alloc, yes)?,
            no: copy_body(alloc, no)?,
        }),
    }
}

/// The same condition once more.
fn copy_condition(alloc: Global, condition: &Cond) -> Result<Cond, NoMemory>
    ensures { IfOk result (λ copy. view.condition copy ≡ view.condition condition.now) }
{
    match condition {
        Cond::Compare(op, left, right) => {
            let left = Box::new(alloc, copy_number(alloc, left)?)?;
            let right = Box::new(alloc, copy_number(alloc, right)?)?;
            Ok(Cond::Compare(*op, left, right))
        }
        Cond::Not(side) => Ok(Cond::Not(Box::new(alloc, copy_condition(alloc, side)?)?)),
        Cond::And(left, right) => {
            let left = Box::new(alloc, copy_condition(alloc, left)?)?;
            let right = Box::new(alloc, copy_condition(alloc, right)?)?;
            Ok(Cond::And(left, right))
        }
        Cond::Or(left, right) => {
            let left = Box::new(alloc, copy_condition(alloc, left)?)?;
            let right = Box::new(alloc, copy_condition(alloc, right)?)?;
            Ok(Cond::Or(left, right))
        }
    }
}

/// The same number once more.
fn copy_number(alloc: Global, number: &Expr) -> Result<Expr, NoMemory>
    ensures { IfOk result (λ copy. view.number copy ≡ view.number number.now) }
{
    match number {
        Expr::Number(literal) => Ok(Expr::Number(*literal)),
        Expr::Name(name) => Ok(Expr::Name(name.copy(alloc)?)),
        Expr::Spot => Ok(Expr::Spot),
        Expr::Period => Ok(Expr::Period),
        Expr::Days => Ok(Expr::Days),
        Expr::Unary(op, side) => Ok(Expr::Unary(*op, Box::new(alloc, copy_number(alloc, side)?)?)),
        Expr::Binary(op, left, right) => {
            let left = Box::new(alloc, copy_number(alloc, left)?)?;
            let right = Box::new(alloc, copy_number(alloc, right)?)?;
            Ok(Expr::Binary(*op, left, right))
        }
    }
}

//! How large a body is: its parts, and its payments.

ghost use Rattle.std.specs.Prelude.{◌≡◌, ◌≤◌, ◌+◌, length};
ghost use Rattle.pay_meaning.specs.Parts.{body_parts, condition_parts, number_parts, payment_count, statement_parts};
ghost use Rattle.pay_tree.specs.Sizes.{pays_of, size_of, up_to};
ghost use Rattle.pay_tree.specs.Views as view;

use crate::tree::{Cond, Expr, Stmt};

/// The most numbers, conditions and statements that are counted one by one.
const MOST_PARTS: u64 = 262_144;

/// The most payments that are counted one by one.
const MOST_PAYMENTS: u64 = 16_384;

/// How many numbers, conditions and statements a body has, or 262,145 where there are more than 262,144.
pub fn size(body: &[Stmt]) -> u64
    ensures { result ≡ size_of (view.body body.now) }
{
    body_size(body)
}

/// How many payments a body has, or 16,385 where there are more than 16,384.
pub fn pays(body: &[Stmt]) -> u64
    ensures { result ≡ pays_of (view.body body.now) }
{
    body_payments(body)
}

/// The sum of two counts, or one more than a limit where it is greater.
fn sum(most: u64, left: u64, right: u64) -> u64
    requires { most ≤ 262_144 }
    ensures { result ≡ up_to most (left + right) }
{
    let sum = left.saturating_add(right);
    if sum <= most { sum } else { most + 1 }
}

/// How many parts statements have.
#[cycle(parts)]
#[tactic(auto, using(crate::proofs::SizeLemmas::capped))]
fn body_size(body: &[Stmt]) -> u64
    ensures { result ≡ up_to 262_144 (length (body_parts (view.body body.now))) }
{
    let mut size = 0;
    for statement in body {
        size = sum(MOST_PARTS, size, statement_size(statement));
    }
    size
}

/// How many parts a statement has: itself, and those of its number, or of its condition and its branches.
#[cycle(parts)]
#[tactic(auto, using(crate::proofs::SizeLemmas::capped))]
fn statement_size(statement: &Stmt) -> u64
    ensures { result ≡ up_to 262_144 (length (statement_parts (view.statement statement.now))) }
{
    match statement {
        Stmt::Assign { name: _, value } => sum(MOST_PARTS, 1, number_size(value)),
        Stmt::Pay { leg: _, amount } => sum(MOST_PARTS, 1, number_size(amount)),
        Stmt::If { cond, yes, no } => {
            let branches = sum(MOST_PARTS, body_size(yes), body_size(no));
            sum(
                MOST_PARTS,
                1,
                sum(MOST_PARTS, condition_size(cond), branches),
            )
        }
    }
}

/// How many parts a condition has: itself, and those of its sides.
#[tactic(auto, using(crate::proofs::SizeLemmas::capped))]
fn condition_size(condition: &Cond) -> u64
    ensures { result ≡ up_to 262_144 (length (condition_parts (view.condition condition.now))) }
{
    match condition {
        Cond::Compare(_, left, right) => both_sizes(number_size(left), number_size(right)),
        Cond::Not(side) => sum(MOST_PARTS, 1, condition_size(side)),
        Cond::And(left, right) | Cond::Or(left, right) => {
            both_sizes(condition_size(left), condition_size(right))
        }
    }
}

/// How many parts a number has: itself, and those of its sides.
#[tactic(auto, using(crate::proofs::SizeLemmas::capped))]
fn number_size(number: &Expr) -> u64
    ensures { result ≡ up_to 262_144 (length (number_parts (view.number number.now))) }
{
    match number {
        Expr::Number(_) | Expr::Name(_) | Expr::Spot | Expr::Period | Expr::Days => 1,
        Expr::Unary(_, side) => sum(MOST_PARTS, 1, number_size(side)),
        Expr::Binary(_, left, right) => both_sizes(number_size(left), number_size(right)),
    }
}

/// One part, and those of its two sides.
#[tactic(auto, using(crate::proofs::SizeLemmas::capped))]
fn both_sizes(left: u64, right: u64) -> u64
    ensures { result ≡ up_to 262_144 (1 + (left + right)) }
{
    sum(MOST_PARTS, 1, sum(MOST_PARTS, left, right))
}

/// How many payments statements have.
#[cycle(payments)]
#[tactic(auto, using(crate::proofs::SizeLemmas::capped))]
fn body_payments(body: &[Stmt]) -> u64
    ensures { result ≡ up_to 16_384 (payment_count (body_parts (view.body body.now))) }
{
    let mut payments = 0;
    for statement in body {
        payments = sum(MOST_PAYMENTS, payments, statement_payments(statement));
    }
    payments
}

/// How many payments a statement has: itself, or those of its branches.
#[cycle(payments)]
fn statement_payments(statement: &Stmt) -> u64
    ensures { result ≡ up_to 16_384 (payment_count (statement_parts (view.statement statement.now))) }
{
    match statement {
        Stmt::Assign { .. } => 0,
        Stmt::Pay { .. } => 1,
        Stmt::If { cond: _, yes, no } => {
            sum(MOST_PAYMENTS, body_payments(yes), body_payments(no))
        }
    }
}

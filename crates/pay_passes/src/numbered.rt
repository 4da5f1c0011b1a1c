//! Events whose names are numbers, with a place for each number and test.

ghost use Rattle.std.specs.Prelude.{◌≡◌, ◌≤◌, ◌+◌, true, IfOk, OnOk, length, map};
ghost use Rattle.pay_meaning.specs.Parts.{event_parts};
ghost use Rattle.pay_meaning.specs.Meaning as meant;
ghost use Rattle.pay_passes.specs.Numbering.{after_body, after_condition, after_number, after_statement, are_written, is_written, is_written_condition};
ghost use Rattle.pay_passes.specs.Numbering.{is_written_statement, numbered_body, numbered_condition, numbered_event, numbered_number};
ghost use Rattle.pay_passes.specs.Numbering.{numbered_statement};
ghost use Rattle.pay_tree.specs.OwnedViews.{event_tree, number_tree, step_tree, steps_tree, test_tree};
ghost use Rattle.pay_tree.specs.Views as view;

use crate::names::NameNumbers;
use pay_fixed::{Fixed, NoMemory};
use pay_tree::{Cond, Event, Expr, NamedEvent, Node, NodeKind, Step, Stmt, Test, TestKind};
use std::alloc::Global;

/// The numbers of the names of a script.
#[derive(Drop)]
pub struct Numbers<'a> {
    /// Those of its variables.
    pub variables: NameNumbers<'a>,
    /// Those of its legs.
    pub legs: NameNumbers<'a>,
}

/// What `period()` and `days()` are in an event.
#[derive(Clone, Copy)]
struct Terms {
    /// The number of its step, 0 in a plain item.
    period: u32,
    /// The days since the date before, 0 in a plain item.
    days: u32,
}

/// A count as a number.
fn whole(count: u32) -> Fixed
    ensures { result ≡ meant.whole count }
{
    Fixed::from_raw(i64::from(count) * 10_000).unwrap()
}

/// The next place, which is then taken.
fn take_place(next: &mut u32) -> u32
    requires { next.now ≤ 262_144 }
    ensures place { result ≡ next.old }
    ensures next { next.new ≡ next.old + 1 }
{
    let place = *next;
    *next += 1;
    place
}

/// A number with its places from `next` on, which is then the place after them.
#[tactic(auto, using(crate::proofs::NumberingLemmas::numbering))]
fn number<'a>(
    alloc: Global,
    expr: &'a Expr,
    numbers: &Numbers<'a>,
    terms: Terms,
    next: &mut u32,
) -> Result<Node, NoMemory>
    requires room { after_number next.now (view.number expr.now) ≤ 262_144 }
    ensures number { IfOk result (λ node. number_tree node
        ≡ numbered_number numbers.now.variables.names.now terms.period terms.days next.old (view.number expr.now)) }
    ensures next { OnOk result (next.new ≡ after_number next.old (view.number expr.now)) }
{
    let id = take_place(next);
    let kind = match expr {
        Expr::Number(literal) => NodeKind::Number(*literal),
        Expr::Name(name) => NodeKind::Slot(numbers.variables.number_of(name)),
        Expr::Spot => NodeKind::Spot,
        Expr::Period => NodeKind::Number(whole(terms.period)),
        Expr::Days => NodeKind::Number(whole(terms.days)),
        Expr::Unary(op, side) => {
            let side = number(alloc, side, numbers, terms, next)?;
            NodeKind::Unary(*op, Box::new(alloc, side)?)
        }
        Expr::Binary(op, left, right) => {
            let left = Box::new(alloc, number(alloc, left, numbers, terms, next)?)?;
            let right = Box::new(alloc, number(alloc, right, numbers, terms, next)?)?;
            NodeKind::Binary(*op, left, right)
        }
    };
    Ok(Node { id, kind })
}

/// A condition with its places from `next` on, which is then the place after them.
#[tactic(auto, using(crate::proofs::NumberingLemmas::numbering))]
fn condition<'a>(
    alloc: Global,
    cond: &'a Cond,
    numbers: &Numbers<'a>,
    terms: Terms,
    next: &mut u32,
) -> Result<Test, NoMemory>
    requires room { after_condition next.now (view.condition cond.now) ≤ 262_144 }
    ensures test { IfOk result (λ test. test_tree test
        ≡ numbered_condition numbers.now.variables.names.now terms.period terms.days next.old (view.condition cond.now)) }
    ensures next { OnOk result (next.new ≡ after_condition next.old (view.condition cond.now)) }
    ensures written { OnOk result (is_written_condition (view.condition cond.now) ≡ true) }
{
    let id = take_place(next);
    let kind = match cond {
        Cond::Compare(op, left, right) => {
            let left = Box::new(alloc, number(alloc, left, numbers, terms, next)?)?;
            let right = Box::new(alloc, number(alloc, right, numbers, terms, next)?)?;
            TestKind::Compare {
                op: *op,
                left,
                right,
                smooth: None,
            }
        }
        Cond::Not(side) => {
            let side = condition(alloc, side, numbers, terms, next)?;
            TestKind::Not(Box::new(alloc, side)?)
        }
        Cond::And(left, right) => {
            let left = Box::new(alloc, condition(alloc, left, numbers, terms, next)?)?;
            let right = Box::new(alloc, condition(alloc, right, numbers, terms, next)?)?;
            TestKind::And(left, right)
        }
        Cond::Or(left, right) => {
            let left = Box::new(alloc, condition(alloc, left, numbers, terms, next)?)?;
            let right = Box::new(alloc, condition(alloc, right, numbers, terms, next)?)?;
            TestKind::Or(left, right)
        }
    };
    Ok(Test {
        id,
        sure: None,
        kind,
    })
}

/// A statement with the places of its numbers and conditions from `next` on, which is then the place after them.
#[cycle(statements)]
#[tactic(auto, using(crate::proofs::NumberingLemmas::numbering))]
fn statement<'a>(
    alloc: Global,
    stmt: &'a Stmt,
    numbers: &Numbers<'a>,
    terms: Terms,
    next: &mut u32,
) -> Result<Step, NoMemory>
    requires room { after_statement next.now (view.statement stmt.now) ≤ 262_144 }
    ensures step { IfOk result (λ step. step_tree step
        ≡ numbered_statement numbers.now.variables.names.now numbers.now.legs.names.now terms.period terms.days next.old (view.statement stmt.now)) }
    ensures next { OnOk result (next.new ≡ after_statement next.old (view.statement stmt.now)) }
    ensures written { OnOk result (is_written_statement (view.statement stmt.now) ≡ true) }
{
    match stmt {
        Stmt::Assign { name, value } => Ok(Step::Assign {
            slot: numbers.variables.number_of(name),
            value: number(alloc, value, numbers, terms, next)?,
        }),
        Stmt::Pay { leg, amount } => Ok(Step::Pay {
            leg: numbers.legs.number_of(leg),
            amount: number(alloc, amount, numbers, terms, next)?,
        }),
        Stmt::If { cond, yes, no } => {
            let test = condition(alloc, cond, numbers, terms, next)?;
            let yes = statements(alloc, yes, numbers, terms, next)?;
            let no = statements(alloc, no, numbers, terms, next)?;
            Ok(Step::If {
                test,
                yes,
                no,
                changes: Vec::new(alloc),
            })
        }
    }
}

/// Statements with the places of their numbers and conditions from `next` on, which is then the place after them.
#[cycle(statements)]
#[tactic(auto, using(crate::proofs::NumberingLemmas::numbering))]
fn statements<'a>(
    alloc: Global,
    stmts: &'a Vec<Stmt>,
    numbers: &Numbers<'a>,
    terms: Terms,
    next: &mut u32,
) -> Result<Vec<Step>, NoMemory>
    requires room { after_body next.now (view.body stmts.now.items) ≤ 262_144 }
    ensures steps { IfOk result (λ steps. steps_tree steps.items
        ≡ numbered_body numbers.now.variables.names.now numbers.now.legs.names.now terms.period terms.days next.old (view.body stmts.now.items)) }
    ensures next { OnOk result (next.new ≡ after_body next.old (view.body stmts.now.items)) }
    ensures written { OnOk result (is_written (view.body stmts.now.items) ≡ true) }
{
    let mut steps = Vec::new(alloc);
    for stmt in stmts {
        steps.push(statement(alloc, stmt, numbers, terms, next)?)?;
    }
    Ok(steps)
}

/// An event with its places from 0 on, and its own period and days as literals.
#[tactic(auto, using(crate::proofs::NumberingLemmas::numbering))]
fn event<'a>(alloc: Global, event: &'a NamedEvent, numbers: &Numbers<'a>) -> Result<Event, NoMemory>
    requires room { after_body 0 (view.body event.now.body.items) ≤ 262_144 }
    ensures event { IfOk result (λ made. event_tree made
        ≡ numbered_event numbers.now.variables.names.now numbers.now.legs.names.now (view.event event.now)) }
    ensures written { OnOk result (is_written (view.event event.now).body ≡ true) }
{
    let terms = Terms {
        period: event.period,
        days: event.days,
    };
    let mut next = 0;
    let steps = statements(alloc, &event.body, numbers, terms, &mut next)?;
    Ok(Event {
        date: event.date,
        period: event.period,
        days: event.days,
        steps,
    })
}

/// Events so, in their order.
pub fn numbered_events<'a>(
    alloc: Global,
    events: &'a Vec<NamedEvent>,
    numbers: &Numbers<'a>,
) -> Result<Vec<Event>, NoMemory>
    requires room { length (event_parts (map view.event events.now.items)) ≤ 262_144 }
    ensures events { IfOk result (λ made. map event_tree made.items
        ≡ map (numbered_event numbers.now.variables.names.now numbers.now.legs.names.now) (map view.event events.now.items)) }
    ensures written { OnOk result (are_written (map view.event events.now.items) ≡ true) }
{
    let mut made = Vec::new(alloc);
    for one in events {
        made.push(event(alloc, one, numbers)?)?;
    }
    Ok(made)
}

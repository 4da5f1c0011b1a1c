//! Tokens that end a statement with the number that a term ends.
//!
//! What the statement stands in is looked at first: memory is taken only where the token may stand there.

ghost use Rattle.std.specs.Prelude.{◌≡◌, Some, option_map, option_and_then};
ghost use Rattle.pay_lexer.specs.declared.token.TokenKind.{TokenKind};
ghost use Rattle.pay_lexer.specs.declared.token.Key.{Key};
ghost use Rattle.pay_meaning.specs.Language.{and_then, choose, done};
ghost use Rattle.pay_tree.specs.Views as tree_of;
ghost use Rattle.pay_grammar.specs.Reading as reading;
ghost use Rattle.pay_place.specs.ReadingViews as view;
ghost use Rattle.pay_place.specs.ReadingViews.{Gives};

use crate::schedule_bounds::{begun_schedule, ended_schedule};
use crate::statements::{added, choice, dated, name_of};
use pay_dates::Day;
use pay_lexer::Letters;
use pay_place::{
    Frame, Head, Mode, Opening, Owner, Stack, State, StepFault, Sum, Unfinished, begun_body,
    block_of, headed, no_logic, opened, pushed, script_of, summed, unfinished_of,
};
use pay_tree::{Cond, Expr, Item, Stmt};
use std::alloc::Global;

/// Statements, with one more: the one that this number ends.
#[tactic(auto, using(crate::proofs::BodyLemmas::body_push))]
fn with_headed(mut body: Vec<Stmt>, head: Head, number: Expr) -> Result<Vec<Stmt>, StepFault>
    ensures { Gives view.statements result (Some (and_then (view.statements body) (reading.headed (view.head head) (tree_of.number number)))) }
{
    body.push(headed(head, number))?;
    Ok(body)
}

/// Statements, with the one whose number a term ends.
fn with_number(
    alloc: Global,
    body: Vec<Stmt>,
    head: Head,
    sum: Sum,
    term: Expr,
) -> Result<Vec<Stmt>, StepFault>
    ensures { Gives view.statements result (Some (and_then (view.statements body)
        (reading.headed (view.head head) (reading.summed (view.sum sum) (tree_of.number term))))) }
{
    let number = summed(alloc, sum, term)?;
    with_headed(body, head, number)
}

/// What is open after the statement whose number a term ends.
fn ended(alloc: Global, statement: Unfinished, sum: Sum, term: Expr) -> Result<Stack, StepFault>
    ensures { Gives view.frames result (reading.ended (view.unfinished statement) (reading.summed (view.sum sum) (tree_of.number term))) }
{
    let Unfinished {
        outer,
        owner,
        body,
        head,
    } = statement;
    let body = with_number(alloc, body, head, sum, term)?;
    pushed(outer, Frame::Body(owner, body))
}

/// The items of a script that ends after the statement whose number a term ends.
fn closed_after(
    alloc: Global,
    statement: Unfinished,
    sum: Sum,
    term: Expr,
) -> Result<Vec<Item>, StepFault>
    ensures { Gives view.items result (option_and_then reading.closed
        (reading.ended (view.unfinished statement) (reading.summed (view.sum sum) (tree_of.number term)))) }
{
    let Unfinished {
        outer,
        owner,
        body,
        head,
    } = statement;
    match owner {
        Owner::Item(date) => match script_of(outer) {
            Some(mut items) => {
                let body = with_number(alloc, body, head, sum, term)?;
                items.push(Item::Plain { date, body })?;
                Ok(items)
            }
            None => Err(StepFault::NotScript),
        },
        other => {
            drop(other);
            Err(StepFault::NotScript)
        }
    }
}

/// The state after `end`, which ends the statement whose number a term ends and a schedule.
fn scheduled_after(
    alloc: Global,
    statement: Unfinished,
    sum: Sum,
    term: Expr,
) -> Result<State, StepFault>
    ensures { Gives view.state result (option_and_then reading.step_end
        (reading.ended (view.unfinished statement) (reading.summed (view.sum sum) (tree_of.number term)))) }
{
    let Unfinished {
        outer,
        owner,
        body,
        head,
    } = statement;
    match owner {
        Owner::Schedule(terms) => match script_of(outer) {
            Some(items) => {
                let body = with_number(alloc, body, head, sum, term)?;
                ended_schedule(alloc, items, terms, body)
            }
            None => Err(StepFault::NotScript),
        },
        other => {
            drop(other);
            Err(StepFault::NotScript)
        }
    }
}

/// The state after `else`, which ends the statement whose number a term ends and the first branch of an `if`.
fn otherwise_after(
    alloc: Global,
    statement: Unfinished,
    sum: Sum,
    term: Expr,
) -> Result<State, StepFault>
    ensures { Gives view.state result (option_and_then reading.step_else
        (reading.ended (view.unfinished statement) (reading.summed (view.sum sum) (tree_of.number term)))) }
{
    let Unfinished {
        outer,
        owner,
        body,
        head,
    } = statement;
    match owner {
        Owner::Yes(cond) => {
            let yes = with_number(alloc, body, head, sum, term)?;
            begun_body(alloc, outer, Owner::No(cond, yes))
        }
        other => {
            drop(other);
            Err(StepFault::NotScript)
        }
    }
}

/// What is open after the `if` whose first branch ends with the number that a term ends, if it may stand there.
fn with_first_branch(
    alloc: Global,
    outer: Stack,
    cond: Cond,
    body: Vec<Stmt>,
    head: Head,
    sum: Sum,
    term: Expr,
) -> Result<Stack, StepFault>
    ensures { Gives view.frames result (reading.with_statement (view.frames outer) (choose (tree_of.condition cond)
        (and_then (view.statements body) (reading.headed (view.head head) (reading.summed (view.sum sum) (tree_of.number term)))) done)) }
{
    match block_of(outer) {
        None => Err(StepFault::NotScript),
        Some(within) => {
            let yes = with_number(alloc, body, head, sum, term)?;
            added(within, choice(cond, yes, Vec::new(alloc)))
        }
    }
}

/// What is open after `endif`, which ends the statement whose number a term ends and an `if`.
fn chosen_after(
    alloc: Global,
    statement: Unfinished,
    sum: Sum,
    term: Expr,
) -> Result<Stack, StepFault>
    ensures { Gives view.frames result (option_and_then reading.chosen
        (reading.ended (view.unfinished statement) (reading.summed (view.sum sum) (tree_of.number term)))) }
{
    let Unfinished {
        outer,
        owner,
        body,
        head,
    } = statement;
    match owner {
        Owner::Yes(cond) => with_first_branch(alloc, outer, cond, body, head, sum, term),
        Owner::No(cond, yes) => match block_of(outer) {
            None => Err(StepFault::NotScript),
            Some(within) => {
                let no = with_number(alloc, body, head, sum, term)?;
                added(within, choice(cond, yes, no))
            }
        },
        other => {
            drop(other);
            Err(StepFault::NotScript)
        }
    }
}

/// The items of a script that ends after a factor.
///
/// # Errors
///
/// `NotScript` where none can end, and `NoMemory` where there was no memory for what ends with it.
pub fn finish_after(
    alloc: Global,
    stack: Stack,
    sum: Sum,
    term: Expr,
) -> Result<Vec<Item>, StepFault>
    ensures { Gives view.items result (reading.finish_in (view.frames stack) (reading.after (view.sum sum) (tree_of.number term))) }
{
    match unfinished_of(stack) {
        None => Err(StepFault::NotScript),
        Some(statement) => closed_after(alloc, statement, sum, term),
    }
}

/// The state after `;`, which ends a statement with the number that a term ends.
///
/// # Errors
///
/// `NotScript` where it can't stand there, and `NoMemory` where there was no memory for the statement.
pub fn step_semicolon(alloc: Global, stack: Stack, sum: Sum, term: Expr) -> Result<State, StepFault>
    ensures { Gives view.state result (reading.step_semicolon (view.frames stack) (reading.summed (view.sum sum) (tree_of.number term))) }
{
    match unfinished_of(stack) {
        None => Err(StepFault::NotScript),
        Some(statement) => {
            let stack = ended(alloc, statement, sum, term)?;
            Ok(State {
                stack,
                mode: Mode::Free,
            })
        }
    }
}

/// The state after a date, which ends an item and its last statement with the number that a term ends.
///
/// # Errors
///
/// `NotScript` where it can't stand there, and `NoMemory` where there was no memory for what ends and begins.
pub fn step_next_item(
    alloc: Global,
    stack: Stack,
    sum: Sum,
    term: Expr,
    date: Day,
) -> Result<State, StepFault>
    ensures { Gives view.state result (reading.step_ended (view.frames stack) (reading.summed (view.sum sum) (tree_of.number term)) (TokenKind.Date date)) }
{
    match unfinished_of(stack) {
        None => Err(StepFault::NotScript),
        Some(statement) => {
            let items = closed_after(alloc, statement, sum, term)?;
            dated(alloc, date, items)
        }
    }
}

/// The state after `schedule`, which ends an item and its last statement with the number that a term ends.
///
/// # Errors
///
/// `NotScript` where it can't stand there, and `NoMemory` where there was no memory for what ends.
pub fn step_next_schedule(
    alloc: Global,
    stack: Stack,
    sum: Sum,
    term: Expr,
) -> Result<State, StepFault>
    ensures { Gives view.state result (reading.step_ended (view.frames stack)
        (reading.summed (view.sum sum) (tree_of.number term)) (TokenKind.Key Key.Schedule)) }
{
    match unfinished_of(stack) {
        None => Err(StepFault::NotScript),
        Some(statement) => {
            let items = closed_after(alloc, statement, sum, term)?;
            Ok(begun_schedule(alloc, items))
        }
    }
}

/// The state after `end`, which ends a schedule and its last statement with the number that a term ends.
///
/// # Errors
///
/// `NotScript` where it can't stand there, and `NoMemory` where there was no memory for what ends.
pub fn step_next_end(alloc: Global, stack: Stack, sum: Sum, term: Expr) -> Result<State, StepFault>
    ensures { Gives view.state result (reading.step_ended (view.frames stack)
        (reading.summed (view.sum sum) (tree_of.number term)) (TokenKind.Key Key.End)) }
{
    match unfinished_of(stack) {
        None => Err(StepFault::NotScript),
        Some(statement) => scheduled_after(alloc, statement, sum, term),
    }
}

/// The state after a word, which ends a statement with the number that a term ends, and begins the next.
///
/// # Errors
///
/// `NotScript` where it can't stand there, and `NoMemory` where there was no memory for what ends and begins.
pub fn step_next_statement(
    alloc: Global,
    stack: Stack,
    sum: Sum,
    term: Expr,
    letters: &Letters,
) -> Result<State, StepFault>
    ensures { Gives view.state result (reading.step_ended (view.frames stack)
        (reading.summed (view.sum sum) (tree_of.number term)) (TokenKind.Word letters.now)) }
{
    match unfinished_of(stack) {
        None => Err(StepFault::NotScript),
        Some(statement) => {
            let name = name_of(alloc, letters)?;
            let stack = ended(alloc, statement, sum, term)?;
            Ok(State {
                stack,
                mode: Mode::Named(name),
            })
        }
    }
}

/// The state after `if`, which ends a statement with the number that a term ends, and begins the next.
///
/// # Errors
///
/// `NotScript` where it can't stand there, and `NoMemory` where there was no memory for what ends and begins.
pub fn step_next_if(alloc: Global, stack: Stack, sum: Sum, term: Expr) -> Result<State, StepFault>
    ensures { Gives view.state result (reading.step_ended (view.frames stack)
        (reading.summed (view.sum sum) (tree_of.number term)) (TokenKind.Key Key.If)) }
{
    match unfinished_of(stack) {
        None => Err(StepFault::NotScript),
        Some(statement) => {
            let stack = ended(alloc, statement, sum, term)?;
            opened(alloc, stack, Frame::Condition(Opening::If, no_logic(alloc)))
        }
    }
}

/// The state after `else`, which ends a statement with the number that a term ends, and the first branch of an `if`.
///
/// # Errors
///
/// `NotScript` where it can't stand there, and `NoMemory` where there was no memory for what ends and begins.
pub fn step_next_else(alloc: Global, stack: Stack, sum: Sum, term: Expr) -> Result<State, StepFault>
    ensures { Gives view.state result (reading.step_ended (view.frames stack)
        (reading.summed (view.sum sum) (tree_of.number term)) (TokenKind.Key Key.Else)) }
{
    match unfinished_of(stack) {
        None => Err(StepFault::NotScript),
        Some(statement) => otherwise_after(alloc, statement, sum, term),
    }
}

/// The state after `endif`, which ends a statement with the number that a term ends, and an `if`.
///
/// # Errors
///
/// `NotScript` where it can't stand there, and `NoMemory` where there was no memory for what ends.
pub fn step_next_endif(
    alloc: Global,
    stack: Stack,
    sum: Sum,
    term: Expr,
) -> Result<State, StepFault>
    ensures { Gives view.state result (reading.step_ended (view.frames stack)
        (reading.summed (view.sum sum) (tree_of.number term)) (TokenKind.Key Key.Endif)) }
{
    match unfinished_of(stack) {
        None => Err(StepFault::NotScript),
        Some(statement) => {
            let stack = chosen_after(alloc, statement, sum, term)?;
            Ok(State {
                stack,
                mode: Mode::AfterEndif,
            })
        }
    }
}

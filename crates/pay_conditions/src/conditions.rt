//! Where a condition goes on or ends: `not`, `and`, `or`, comparisons, brackets and `then`.
//!
//! What the token ends is looked at first: memory is taken only where the token may stand there.

ghost use Rattle.std.specs.Prelude.{◌≡◌, ◌∷◌, Some, List};
ghost use Rattle.pay_lexer.specs.declared.token.TokenKind.{TokenKind};
ghost use Rattle.pay_tree.specs.Views as tree_of;
ghost use Rattle.pay_grammar.specs.Reading as reading;
ghost use Rattle.pay_grammar.specs.Reading.{Frame as OpenFrame};
ghost use Rattle.pay_place.specs.ReadingViews as view;
ghost use Rattle.pay_place.specs.ReadingViews.{Gives};

use pay_lexer::{Key, Sign, TokenKind};
use pay_place::{
    Before, Frame, Innermost, Logic, Mode, OpenCondition, Opening, Owner, Stack, State, StepFault,
    Sum, Tail, arrived, begun_body, between_items, condition_of, fresh, innermost_of, is_fresh,
    is_no_logic, no_logic, open_condition_of, opened, pushed, summed, with_and, with_not, with_or,
};
use pay_tree::{Compare, Expr};
use std::alloc::Global;

/// Whether a comparison may begin in this frame: it is a condition, and the atom that is awaited would be the first.
fn may_compare(frame: &Frame, left: &Before) -> bool
    ensures { (rest : List OpenFrame) → result ≡ reading.may_compare (view.frame frame.now ∷ rest) (view.before left.now) }
{
    match frame {
        Frame::Condition(_, _) => is_fresh(left),
        _ => false,
    }
}

/// The state after `(` where an atom is awaited.
///
/// # Errors
///
/// `NoMemory` where there was no memory for its frame.
pub fn step_open(alloc: Global, stack: Stack, left: Before) -> Result<State, StepFault>
    ensures { Gives view.state result (Some (reading.step_open (view.frames stack) (view.before left))) }
{
    match innermost_of(stack) {
        Innermost::Script(items) => {
            opened(alloc, between_items(alloc, items), Frame::Bracket(left))
        }
        Innermost::Frame(frame, outer) => {
            let compares = may_compare(&frame, &left);
            let stack = pushed(outer, frame)?;
            if compares {
                opened(
                    alloc,
                    stack,
                    Frame::Condition(Opening::Bracket, no_logic(alloc)),
                )
            } else {
                opened(alloc, stack, Frame::Bracket(left))
            }
        }
    }
}

/// The state after `not`, which stands left of a comparison in this condition.
fn negated(alloc: Global, condition: OpenCondition) -> Result<State, StepFault>
    ensures { Gives view.state result (reading.step_not (view.open_condition condition) reading.fresh) }
{
    let OpenCondition {
        outer,
        opening,
        logic,
    } = condition;
    let logic = with_not(logic)?;
    opened(alloc, outer, Frame::Condition(opening, logic))
}

/// The state after `not`.
///
/// # Errors
///
/// `NotScript` where it can't stand there, and `NoMemory` where there was no memory for it.
pub fn step_not(alloc: Global, stack: Stack, left: Before) -> Result<State, StepFault>
    ensures { Gives view.state result (reading.step_not (view.frames stack) (view.before left)) }
{
    let is_first = is_fresh(&left);
    drop(left);
    match open_condition_of(stack) {
        None => Err(StepFault::NotScript),
        Some(condition) => {
            if is_first {
                negated(alloc, condition)
            } else {
                Err(StepFault::NotScript)
            }
        }
    }
}

/// The state after `)`, which ends a bracket with the condition in it.
///
/// # Errors
///
/// `NotScript` where it can't stand there, and `NoMemory` where there was no memory for the condition.
pub fn step_group(alloc: Global, stack: Stack, tail: Tail) -> Result<State, StepFault>
    ensures { Gives view.state result (reading.step_group (view.frames stack) (view.tail tail)) }
{
    match open_condition_of(stack) {
        None => Err(StepFault::NotScript),
        Some(open_one) => {
            let OpenCondition {
                outer,
                opening,
                logic,
            } = open_one;
            match opening {
                Opening::Bracket => {
                    let condition = condition_of(alloc, logic, tail)?;
                    Ok(State {
                        stack: outer,
                        mode: Mode::AfterCondition(condition),
                    })
                }
                Opening::If => Err(StepFault::NotScript),
            }
        }
    }
}

/// The state after `then`, which ends the condition of an `if`.
fn step_then(alloc: Global, stack: Stack, tail: Tail) -> Result<State, StepFault>
    ensures { Gives view.state result (reading.step_then (view.frames stack) (view.tail tail)) }
{
    match open_condition_of(stack) {
        None => Err(StepFault::NotScript),
        Some(open_one) => {
            let OpenCondition {
                outer,
                opening,
                logic,
            } = open_one;
            match opening {
                Opening::If => {
                    let condition = condition_of(alloc, logic, tail)?;
                    begun_body(alloc, outer, Owner::Yes(condition))
                }
                Opening::Bracket => Err(StepFault::NotScript),
            }
        }
    }
}

/// The state after `and`.
fn step_and(alloc: Global, stack: Stack, tail: Tail) -> Result<State, StepFault>
    ensures { Gives view.state result (reading.step_and (view.frames stack) (view.tail tail)) }
{
    match open_condition_of(stack) {
        None => Err(StepFault::NotScript),
        Some(open_one) => {
            let OpenCondition {
                outer,
                opening,
                logic,
            } = open_one;
            let logic = with_and(alloc, logic, tail)?;
            opened(alloc, outer, Frame::Condition(opening, logic))
        }
    }
}

/// The state after `or`.
fn step_or(alloc: Global, stack: Stack, tail: Tail) -> Result<State, StepFault>
    ensures { Gives view.state result (reading.step_or (view.frames stack) (view.tail tail)) }
{
    match open_condition_of(stack) {
        None => Err(StepFault::NotScript),
        Some(open_one) => {
            let OpenCondition {
                outer,
                opening,
                logic,
            } = open_one;
            let logic = with_or(alloc, logic, tail)?;
            opened(alloc, outer, Frame::Condition(opening, logic))
        }
    }
}

/// The state after a keyword that stands after a condition so far: `then`, `and` or `or`.
fn step_condition_key(alloc: Global, stack: Stack, tail: Tail, key: Key) -> Result<State, StepFault>
    ensures { Gives view.state result (reading.step_condition (view.frames stack) (view.tail tail) (TokenKind.Key key)) }
{
    match key {
        Key::Then => step_then(alloc, stack, tail),
        Key::And => step_and(alloc, stack, tail),
        Key::Or => step_or(alloc, stack, tail),
        _ => Err(StepFault::NotScript),
    }
}

/// The state after a token that stands after a condition so far: it goes on, or a bracket or the condition of an `if` ends.
///
/// # Errors
///
/// `NotScript` where the token can't stand there, and `NoMemory` where there was no memory for the condition.
pub fn step_condition(
    alloc: Global,
    stack: Stack,
    tail: Tail,
    token: &TokenKind,
) -> Result<State, StepFault>
    ensures { Gives view.state result (reading.step_condition (view.frames stack) (view.tail tail) token.now) }
{
    match token {
        TokenKind::Sign(Sign::ParenRight) => step_group(alloc, stack, tail),
        TokenKind::Key(key) => step_condition_key(alloc, stack, tail, *key),
        _ => Err(StepFault::NotScript),
    }
}

/// The state after a keyword that stands after the right number of a comparison.
///
/// # Errors
///
/// `NotScript` where the keyword can't stand there, and `NoMemory` where there was no memory for the comparison.
pub fn step_compared(
    alloc: Global,
    stack: Stack,
    sum: Sum,
    term: Expr,
    key: Key,
) -> Result<State, StepFault>
    ensures { Gives view.state result (reading.step_compared (view.frames stack) (reading.summed (view.sum sum) (tree_of.number term)) (TokenKind.Key key)) }
{
    match innermost_of(stack) {
        Innermost::Frame(frame, outer) => match frame {
            Frame::Comparison(operator, left) => {
                step_condition_key(alloc, outer, Tail::Compared(operator, left, sum, term), key)
            }
            other => {
                drop(other);
                Err(StepFault::NotScript)
            }
        },
        other => {
            drop(other);
            Err(StepFault::NotScript)
        }
    }
}

/// The state after the sign of a comparison, whose left number a term ends.
///
/// # Errors
///
/// `NotScript` where it can't stand there, and `NoMemory` where there was no memory for the number.
pub fn step_comparison(
    alloc: Global,
    stack: Stack,
    sum: Sum,
    term: Expr,
    operator: Compare,
) -> Result<State, StepFault>
    ensures { Gives view.state result (reading.step_comparison (view.frames stack)
        (reading.summed (view.sum sum) (tree_of.number term)) (tree_of.comparison operator)) }
{
    match open_condition_of(stack) {
        None => Err(StepFault::NotScript),
        Some(open_one) => {
            let OpenCondition {
                outer,
                opening,
                logic,
            } = open_one;
            let number = summed(alloc, sum, term)?;
            let stack = pushed(outer, Frame::Condition(opening, logic))?;
            opened(alloc, stack, Frame::Comparison(operator, number))
        }
    }
}

/// The state after `)` in a condition that a term ends: where the number is all of a bracket, the bracket is that of a number.
///
/// # Errors
///
/// `NotScript` where it can't stand there, and `NoMemory` where there was no memory for the number.
pub fn step_number_group(
    alloc: Global,
    opening: Opening,
    logic: Logic,
    outer: Stack,
    sum: Sum,
    term: Expr,
) -> Result<State, StepFault>
    ensures { Gives view.state result (reading.step_number_group (view.opening opening) (view.logic logic) (view.frames outer)
        (reading.summed (view.sum sum) (tree_of.number term))) }
{
    match opening {
        Opening::If => Err(StepFault::NotScript),
        Opening::Bracket => {
            if !is_no_logic(&logic) {
                return Err(StepFault::NotScript);
            }
            let number = summed(alloc, sum, term)?;
            arrived(alloc, outer, fresh(alloc), number)
        }
    }
}

//! Where a factor is awaited, or a bracket of a call, and what follows a factor.

ghost use Rattle.std.specs.Prelude.{◌≡◌, Some, ◌∷◌};
ghost use Rattle.pay_fixed.specs.Decimal.{decimal_in};
ghost use Rattle.pay_lexer.specs.declared.token.TokenKind.{TokenKind};
ghost use Rattle.pay_tree.specs.Views as tree_of;
ghost use Rattle.pay_grammar.specs.Reading as reading;
ghost use Rattle.pay_place.specs.ReadingViews as view;
ghost use Rattle.pay_place.specs.ReadingViews.{Gives};

use pay_conditions::{
    step_compared, step_comparison, step_group, step_not, step_number_group, step_open,
};
use pay_fixed::read_decimal;
use pay_lexer::{Digits, Key, Letters, Sign, TokenKind};
use pay_place::{
    Before, Frame, Innermost, Mode, Product, Stack, State, StepFault, Sum, Tail, arrived,
    before_factor, binary, innermost_of, opened, summed, unary, with_argument, with_sign,
};
use pay_statements::{
    name_of, step_next_else, step_next_end, step_next_endif, step_next_if, step_next_item,
    step_next_schedule, step_next_statement, step_semicolon,
};
use pay_tree::{Binary, Compare, Expr, Unary};
use std::alloc::Global;

/// The state after a number token.
fn step_literal(
    alloc: Global,
    stack: Stack,
    left: Before,
    digits: &Digits,
) -> Result<State, StepFault>
    ensures { Gives view.state result (reading.step_literal (view.frames stack) (view.before left) (decimal_in digits.now)) }
{
    match read_decimal(digits.bytes()) {
        Ok(number) => arrived(alloc, stack, left, Expr::Number(number)),
        Err(_) => Err(StepFault::NotScript),
    }
}

/// The state after a name in a number.
fn step_variable(
    alloc: Global,
    stack: Stack,
    left: Before,
    letters: &Letters,
) -> Result<State, StepFault>
    ensures { Gives view.state result (reading.step_variable (view.frames stack) (view.before left) letters.now) }
{
    let name = name_of(alloc, letters)?;
    arrived(alloc, stack, left, Expr::Name(name))
}

/// The state after a minus sign before an atom.
fn negated(stack: Stack, left: Before) -> Result<State, StepFault>
    ensures { Gives view.state result (Some (reading.state (view.frames stack) (reading.factor_next (reading.with_sign (view.before left))))) }
{
    let left = with_sign(left)?;
    Ok(State {
        stack,
        mode: Mode::FactorNext(left),
    })
}

/// The state where a bracket is awaited that opens this frame.
fn bracket_next(stack: Stack, frame: Frame) -> State
    ensures { view.state result ≡ reading.state (view.frames stack) (reading.bracket_next (view.frame frame)) }
{
    State {
        stack,
        mode: Mode::BracketNext(frame),
    }
}

/// The state where the two brackets are awaited after a word that stands for this number.
fn call_named(stack: Stack, number: Expr, left: Before) -> State
    ensures { view.state result ≡ reading.state (view.frames stack) (reading.call_named (tree_of.number number) (view.before left)) }
{
    State {
        stack,
        mode: Mode::CallNamed(number, left),
    }
}

/// The state after a keyword where a factor is awaited.
fn step_key(alloc: Global, stack: Stack, left: Before, key: Key) -> Result<State, StepFault>
    ensures { Gives view.state result (reading.step_factor (view.frames stack) (view.before left) (TokenKind.Key key)) }
{
    match key {
        Key::Min => Ok(bracket_next(stack, Frame::Extreme(Binary::Min, left, None))),
        Key::Max => Ok(bracket_next(stack, Frame::Extreme(Binary::Max, left, None))),
        Key::Abs => Ok(bracket_next(stack, Frame::Absolute(left))),
        Key::Spot => Ok(call_named(stack, Expr::Spot, left)),
        Key::Period => Ok(call_named(stack, Expr::Period, left)),
        Key::Days => Ok(call_named(stack, Expr::Days, left)),
        Key::Not => step_not(alloc, stack, left),
        _ => Err(StepFault::NotScript),
    }
}

/// The state after a token where a factor is awaited: a minus sign, what begins an atom, or `not`.
///
/// # Errors
///
/// `NotScript` where the token can't stand there, and `NoMemory` where there was no memory for what it adds.
pub fn step_factor(
    alloc: Global,
    stack: Stack,
    left: Before,
    token: &TokenKind,
) -> Result<State, StepFault>
    ensures { Gives view.state result (reading.step_factor (view.frames stack) (view.before left) token.now) }
{
    match token {
        TokenKind::Number(digits) => step_literal(alloc, stack, left, digits),
        TokenKind::Word(letters) => step_variable(alloc, stack, left, letters),
        TokenKind::Sign(Sign::Minus) => negated(stack, left),
        TokenKind::Sign(Sign::ParenLeft) => step_open(alloc, stack, left),
        TokenKind::Key(key) => step_key(alloc, stack, left, *key),
        _ => Err(StepFault::NotScript),
    }
}

/// The state after a token that stands after `min`, `max` or `abs`: `(`.
///
/// # Errors
///
/// `NotScript` where the token can't stand there, and `NoMemory` where there was no memory for what it adds.
pub fn step_bracket(
    alloc: Global,
    stack: Stack,
    frame: Frame,
    token: &TokenKind,
) -> Result<State, StepFault>
    ensures { Gives view.state result (reading.step_bracket (view.frames stack) (view.frame frame) token.now) }
{
    match token {
        TokenKind::Sign(Sign::ParenLeft) => opened(alloc, stack, frame),
        _ => {
            drop(frame);
            Err(StepFault::NotScript)
        }
    }
}

/// The state after a token that stands after `spot`, `period` or `days`: `(`.
///
/// # Errors
///
/// `NotScript` where the token can't stand there.
pub fn step_call_named(
    stack: Stack,
    number: Expr,
    left: Before,
    token: &TokenKind,
) -> Result<State, StepFault>
    ensures { Gives view.state result (reading.step_call_named (view.frames stack) (tree_of.number number) (view.before left) token.now) }
{
    match token {
        TokenKind::Sign(Sign::ParenLeft) => Ok(State {
            stack,
            mode: Mode::CallOpened(number, left),
        }),
        _ => Err(StepFault::NotScript),
    }
}

/// The state after the token that stands after this `(`: `)`.
///
/// # Errors
///
/// `NotScript` where the token can't stand there, and `NoMemory` where there was no memory for what it adds.
pub fn step_call_opened(
    alloc: Global,
    stack: Stack,
    number: Expr,
    left: Before,
    token: &TokenKind,
) -> Result<State, StepFault>
    ensures { Gives view.state result (reading.step_call_opened (view.frames stack) (tree_of.number number) (view.before left) token.now) }
{
    match token {
        TokenKind::Sign(Sign::ParenRight) => arrived(alloc, stack, left, number),
        _ => Err(StepFault::NotScript),
    }
}

/// The state after `)`, which ends the innermost bracket with the number that a term ends.
///
/// The bracket is looked at first: memory is taken only where one may end.
fn step_close(alloc: Global, stack: Stack, sum: Sum, term: Expr) -> Result<State, StepFault>
    ensures { Gives view.state result (reading.step_close (view.frames stack) (reading.summed (view.sum sum) (tree_of.number term))) }
{
    match innermost_of(stack) {
        Innermost::Frame(frame, outer) => close(alloc, frame, outer, sum, term),
        other => {
            drop(other);
            Err(StepFault::NotScript)
        }
    }
}

/// The state after `)`, which ends a bracket with the number that a term ends.
fn close_bracket(
    alloc: Global,
    left: Before,
    outer: Stack,
    sum: Sum,
    term: Expr,
) -> Result<State, StepFault>
    ensures { Gives view.state result (reading.step_close (view.frame (Frame.Bracket left) ∷ view.frames outer)
        (reading.summed (view.sum sum) (tree_of.number term))) }
{
    let number = summed(alloc, sum, term)?;
    arrived(alloc, outer, left, number)
}

/// The state after `)`, which ends the bracket of `abs` with the number that a term ends.
fn close_absolute(
    alloc: Global,
    left: Before,
    outer: Stack,
    sum: Sum,
    term: Expr,
) -> Result<State, StepFault>
    ensures { Gives view.state result (reading.step_close (view.frame (Frame.Absolute left) ∷ view.frames outer)
        (reading.summed (view.sum sum) (tree_of.number term))) }
{
    let number = summed(alloc, sum, term)?;
    let absolute = unary(alloc, Unary::Abs, number)?;
    arrived(alloc, outer, left, absolute)
}

/// The state after `)`, which ends the bracket of `min` or `max` with the number that a term ends: only one that has an argument before may end.
fn close_extreme(
    alloc: Global,
    operator: Binary,
    left: Before,
    first: Option<Expr>,
    outer: Stack,
    sum: Sum,
    term: Expr,
) -> Result<State, StepFault>
    ensures { Gives view.state result (reading.step_close (view.frame (Frame.Extreme operator left first) ∷ view.frames outer)
        (reading.summed (view.sum sum) (tree_of.number term))) }
{
    match first {
        Some(first) => {
            let number = summed(alloc, sum, term)?;
            let chosen = binary(alloc, operator, first, number)?;
            arrived(alloc, outer, left, chosen)
        }
        None => Err(StepFault::NotScript),
    }
}

/// The state after `)`, which ends this frame with the number that a term ends.
fn close(
    alloc: Global,
    frame: Frame,
    outer: Stack,
    sum: Sum,
    term: Expr,
) -> Result<State, StepFault>
    ensures { Gives view.state result (reading.step_close (view.frame frame ∷ view.frames outer)
        (reading.summed (view.sum sum) (tree_of.number term))) }
{
    match frame {
        Frame::Bracket(left) => close_bracket(alloc, left, outer, sum, term),
        Frame::Absolute(left) => close_absolute(alloc, left, outer, sum, term),
        Frame::Extreme(operator, left, first) => {
            close_extreme(alloc, operator, left, first, outer, sum, term)
        }
        Frame::Comparison(operator, left) => {
            step_group(alloc, outer, Tail::Compared(operator, left, sum, term))
        }
        Frame::Condition(opening, logic) => {
            step_number_group(alloc, opening, logic, outer, sum, term)
        }
        other => {
            drop(other);
            Err(StepFault::NotScript)
        }
    }
}

/// The state after `,`, which ends an argument of `min` or `max` with the number that a term ends.
fn step_comma(alloc: Global, stack: Stack, sum: Sum, term: Expr) -> Result<State, StepFault>
    ensures { Gives view.state result (reading.step_comma (view.frames stack) (reading.summed (view.sum sum) (tree_of.number term))) }
{
    match innermost_of(stack) {
        Innermost::Frame(frame, outer) => match frame {
            Frame::Extreme(operator, left, first) => {
                let number = summed(alloc, sum, term)?;
                let chosen = with_argument(alloc, operator, first, number)?;
                opened(alloc, outer, Frame::Extreme(operator, left, Some(chosen)))
            }
            other => {
                drop(other);
                Err(StepFault::NotScript)
            }
        },
        other => {
            drop(other);
            Err(StepFault::NotScript)
        }
    }
}

/// The state after `+`, `-`, `*` or `/`, if there may be one more factor.
fn more(alloc: Global, stack: Stack, sum: Sum, product: Product) -> State
    ensures { view.state result ≡ reading.state (view.frames stack) (reading.factor_next (reading.before (view.sum sum) (view.product product) 0)) }
{
    State {
        stack,
        mode: Mode::FactorNext(before_factor(alloc, sum, product)),
    }
}

/// The state after a sign that stands after a factor.
fn step_sign(
    alloc: Global,
    stack: Stack,
    sum: Sum,
    term: Expr,
    sign: Sign,
) -> Result<State, StepFault>
    ensures { Gives view.state result (reading.step_after (view.frames stack) (view.sum sum) (tree_of.number term) (TokenKind.Sign sign)) }
{
    match sign {
        Sign::Plus => {
            let number = summed(alloc, sum, term)?;
            Ok(more(alloc, stack, Sum::Plus(number), Product::Nothing))
        }
        Sign::Minus => {
            let number = summed(alloc, sum, term)?;
            Ok(more(alloc, stack, Sum::Minus(number), Product::Nothing))
        }
        Sign::Star => Ok(more(alloc, stack, sum, Product::Times(term))),
        Sign::Slash => Ok(more(alloc, stack, sum, Product::Over(term))),
        Sign::ParenRight => step_close(alloc, stack, sum, term),
        Sign::Comma => step_comma(alloc, stack, sum, term),
        Sign::Semicolon => step_semicolon(alloc, stack, sum, term),
        Sign::Less => step_comparison(alloc, stack, sum, term, Compare::Less),
        Sign::LessEq => step_comparison(alloc, stack, sum, term, Compare::LessEq),
        Sign::More => step_comparison(alloc, stack, sum, term, Compare::More),
        Sign::MoreEq => step_comparison(alloc, stack, sum, term, Compare::MoreEq),
        Sign::Equals => step_comparison(alloc, stack, sum, term, Compare::Same),
        Sign::Differs => step_comparison(alloc, stack, sum, term, Compare::Differs),
        _ => Err(StepFault::NotScript),
    }
}

/// The state after a keyword that stands after a factor: the next item or statement begins, a condition goes on or ends, or a branch or a schedule ends.
fn step_after_key(
    alloc: Global,
    stack: Stack,
    sum: Sum,
    term: Expr,
    key: Key,
) -> Result<State, StepFault>
    ensures { Gives view.state result (reading.step_after (view.frames stack) (view.sum sum) (tree_of.number term) (TokenKind.Key key)) }
{
    match key {
        Key::Schedule => step_next_schedule(alloc, stack, sum, term),
        Key::End => step_next_end(alloc, stack, sum, term),
        Key::If => step_next_if(alloc, stack, sum, term),
        Key::Else => step_next_else(alloc, stack, sum, term),
        Key::Endif => step_next_endif(alloc, stack, sum, term),
        Key::Then | Key::And | Key::Or => step_compared(alloc, stack, sum, term, key),
        _ => Err(StepFault::NotScript),
    }
}

/// The state after a token that stands after a factor: the term or the number goes on, a comparison or a condition does, or a bracket, an argument, a
/// condition or a statement ends.
///
/// # Errors
///
/// `NotScript` where the token can't stand there, and `NoMemory` where there was no memory for what it adds.
pub fn step_after(
    alloc: Global,
    stack: Stack,
    sum: Sum,
    term: Expr,
    token: &TokenKind,
) -> Result<State, StepFault>
    ensures { Gives view.state result (reading.step_after (view.frames stack) (view.sum sum) (tree_of.number term) token.now) }
{
    match token {
        TokenKind::Sign(sign) => step_sign(alloc, stack, sum, term, *sign),
        TokenKind::Date(date) => step_next_item(alloc, stack, sum, term, *date),
        TokenKind::Word(letters) => step_next_statement(alloc, stack, sum, term, letters),
        TokenKind::Key(key) => step_after_key(alloc, stack, sum, term, *key),
        _ => Err(StepFault::NotScript),
    }
}

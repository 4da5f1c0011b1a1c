//! A token after another, by what is awaited.

ghost use Rattle.pay_grammar.specs.Reading as reading;
ghost use Rattle.pay_place.specs.ReadingViews as view;
ghost use Rattle.pay_place.specs.ReadingViews.{Gives};

use crate::factors::{step_after, step_bracket, step_call_named, step_call_opened, step_factor};
use pay_conditions::step_condition;
use pay_lexer::TokenKind;
use pay_place::{Mode, State, StepFault, Tail};
use pay_schedules::step_heading;
use pay_statements::{closed, finish_after, step_after_endif, step_free, step_named};
use pay_tree::Item;
use std::alloc::Global;

/// The state after one more token, by what is awaited.
///
/// # Errors
///
/// `NotScript` where the token can't stand there, and `NoMemory` where there was no memory for what it adds.
pub fn step(alloc: Global, state: State, token: &TokenKind) -> Result<State, StepFault>
    ensures { Gives view.state result (reading.step (view.state state) token.now) }
{
    let State { stack, mode } = state;
    match mode {
        Mode::Free => step_free(alloc, stack, token),
        Mode::Heading(awaited) => step_heading(alloc, stack, awaited, token),
        Mode::AfterEndif => step_after_endif(alloc, stack, token),
        Mode::Named(name) => step_named(alloc, stack, name, token),
        Mode::FactorNext(left) => step_factor(alloc, stack, left, token),
        Mode::After(sum, term) => step_after(alloc, stack, sum, term, token),
        Mode::AfterCondition(condition) => {
            step_condition(alloc, stack, Tail::Made(condition), token)
        }
        Mode::BracketNext(frame) => step_bracket(alloc, stack, frame, token),
        Mode::CallNamed(number, left) => step_call_named(stack, number, left, token),
        Mode::CallOpened(number, left) => step_call_opened(alloc, stack, number, left, token),
    }
}

/// The items of a script that ends here.
///
/// # Errors
///
/// `NotScript` where none can end, and `NoMemory` where there was no memory for what ends with it.
pub fn finish(alloc: Global, state: State) -> Result<Vec<Item>, StepFault>
    ensures { Gives view.items result (reading.finish (view.state state)) }
{
    let State { stack, mode } = state;
    match mode {
        Mode::Free => closed(stack),
        Mode::AfterEndif => closed(stack),
        Mode::After(sum, term) => finish_after(alloc, stack, sum, term),
        other => {
            drop(other);
            Err(StepFault::NotScript)
        }
    }
}

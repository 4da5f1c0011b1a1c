//! Where a statement, an item, or the end of a branch or of a schedule is awaited, and what follows the name of a statement.

ghost use Rattle.std.specs.Prelude.{◌≡◌, Some, ◌∷◌, IfOk, IsErrOf};
ghost use Rattle.pay_meaning.specs.Language.{choose};
ghost use Rattle.pay_meaning.specs.Words.{IsName};
ghost use Rattle.pay_tree.specs.Views as tree_of;
ghost use Rattle.pay_grammar.specs.Reading as reading;
ghost use Rattle.pay_place.specs.ReadingViews as view;
ghost use Rattle.pay_place.specs.ReadingViews.{Gives};

use crate::schedule_bounds::{step_end, step_schedule};
use pay_dates::Day;
use pay_lexer::{Key, Letters, Sign, TokenKind};
use pay_place::{
    Block, Frame, Head, Innermost, Mode, Opening, Owner, Stack, State, StepFault, begun_body,
    between_items, block_of, innermost_of, no_logic, opened, pushed, script_of,
};
use pay_tree::{Cond, Item, Name, Stmt};
use std::alloc::Global;

/// The name that letters are.
///
/// # Errors
///
/// `NotScript` where they are no name, and `NoMemory` where there was no memory for the name that they are.
pub fn name_of(alloc: Global, letters: &Letters) -> Result<Name, StepFault>
    ensures name { IfOk result (λ name. (name ≡ letters.now) × IsName letters.now) }
    ensures refused { IsErrOf result StepFault.NotScript → ¬ IsName letters.now }
    ensures no_memory { IsErrOf result StepFault.NoMemory → IsName letters.now }
{
    let name = Name::read(alloc, letters.bytes())?;
    Ok(name)
}

/// The items of a script in which these statements end.
fn with_item(outer: Stack, owner: Owner, body: Vec<Stmt>) -> Result<Vec<Item>, StepFault>
    ensures { Gives view.items result (reading.closed (view.frame (Frame.Body owner body) ∷ view.frames outer)) }
{
    match owner {
        Owner::Item(date) => match script_of(outer) {
            Some(mut items) => {
                items.push(Item::Plain { date, body })?;
                Ok(items)
            }
            None => Err(StepFault::NotScript),
        },
        other => {
            drop(other);
            Err(StepFault::NotScript)
        }
    }
}

/// The items of a script that ends between statements.
///
/// # Errors
///
/// `NotScript` where none can end, and `NoMemory` where there was no memory for its last item.
pub fn closed(stack: Stack) -> Result<Vec<Item>, StepFault>
    ensures { Gives view.items result (reading.closed (view.frames stack)) }
{
    match innermost_of(stack) {
        Innermost::Script(items) => Ok(items),
        Innermost::Frame(frame, outer) => match frame {
            Frame::Body(owner, body) => with_item(outer, owner, body),
            other => {
                drop(other);
                Err(StepFault::NotScript)
            }
        },
    }
}

/// The state after the date of a new item.
///
/// # Errors
///
/// `NoMemory` where there was no memory for the item's frame.
pub fn dated(alloc: Global, date: Day, items: Vec<Item>) -> Result<State, StepFault>
    ensures { Gives view.state result (Some (reading.dated date (view.items items))) }
{
    let script = between_items(alloc, items);
    begun_body(alloc, script, Owner::Item(date))
}

/// What is open, with one more statement among those that are.
///
/// # Errors
///
/// `NoMemory` where there was no memory for it.
#[tactic(auto, using(crate::proofs::BodyLemmas::body_push))]
pub fn added(block: Block, statement: Stmt) -> Result<Stack, StepFault>
    ensures { Gives view.frames result (reading.with_statement (view.block block) (tree_of.statement statement)) }
{
    let Block {
        outer,
        owner,
        mut body,
    } = block;
    body.push(statement)?;
    pushed(outer, Frame::Body(owner, body))
}

/// The `if` with a condition and two branches.
pub fn choice(cond: Cond, yes: Vec<Stmt>, no: Vec<Stmt>) -> Stmt
    ensures { tree_of.statement result ≡ choose (tree_of.condition cond) (view.statements yes) (view.statements no) }
{
    Stmt::If { cond, yes, no }
}

/// What is open, with one more statement, if statements are.
fn with_statement(stack: Stack, statement: Stmt) -> Result<Stack, StepFault>
    ensures { Gives view.frames result (reading.with_statement (view.frames stack) (tree_of.statement statement)) }
{
    match block_of(stack) {
        None => Err(StepFault::NotScript),
        Some(block) => added(block, statement),
    }
}

/// What is open after the `if` that ends here.
fn chosen(alloc: Global, stack: Stack) -> Result<Stack, StepFault>
    ensures { Gives view.frames result (reading.chosen (view.frames stack)) }
{
    match block_of(stack) {
        None => Err(StepFault::NotScript),
        Some(block) => {
            let Block { outer, owner, body } = block;
            match owner {
                Owner::Yes(cond) => with_statement(outer, choice(cond, body, Vec::new(alloc))),
                Owner::No(cond, yes) => with_statement(outer, choice(cond, yes, body)),
                other => {
                    drop(other);
                    Err(StepFault::NotScript)
                }
            }
        }
    }
}

/// The state after the word that begins a statement.
fn step_word(alloc: Global, stack: Stack, letters: &Letters) -> Result<State, StepFault>
    ensures { Gives view.state result (reading.step_word (view.frames stack) letters.now) }
{
    match block_of(stack) {
        None => Err(StepFault::NotScript),
        Some(block) => {
            let Block { outer, owner, body } = block;
            let name = name_of(alloc, letters)?;
            let stack = pushed(outer, Frame::Body(owner, body))?;
            Ok(State {
                stack,
                mode: Mode::Named(name),
            })
        }
    }
}

/// The state after `if`, which begins a statement.
fn step_if(alloc: Global, stack: Stack) -> Result<State, StepFault>
    ensures { Gives view.state result (reading.step_if (view.frames stack)) }
{
    match block_of(stack) {
        None => Err(StepFault::NotScript),
        Some(block) => {
            let Block { outer, owner, body } = block;
            let stack = pushed(outer, Frame::Body(owner, body))?;
            opened(alloc, stack, Frame::Condition(Opening::If, no_logic(alloc)))
        }
    }
}

/// The state after `else`, which ends the first branch of an `if`.
fn step_else(alloc: Global, stack: Stack) -> Result<State, StepFault>
    ensures { Gives view.state result (reading.step_else (view.frames stack)) }
{
    match block_of(stack) {
        None => Err(StepFault::NotScript),
        Some(block) => {
            let Block { outer, owner, body } = block;
            match owner {
                Owner::Yes(cond) => begun_body(alloc, outer, Owner::No(cond, body)),
                other => {
                    drop(other);
                    Err(StepFault::NotScript)
                }
            }
        }
    }
}

/// The state after `endif`, which ends an `if`.
fn step_endif(alloc: Global, stack: Stack) -> Result<State, StepFault>
    ensures { Gives view.state result (reading.step_endif (view.frames stack)) }
{
    let stack = chosen(alloc, stack)?;
    Ok(State {
        stack,
        mode: Mode::AfterEndif,
    })
}

/// The state after a token between statements: a date or `schedule` begins an item, a name or `if` a statement, `else` and `endif` end a branch, and
/// `end` a schedule.
///
/// # Errors
///
/// `NotScript` where the token can't stand there, and `NoMemory` where there was no memory for what it adds.
pub fn step_free(alloc: Global, stack: Stack, token: &TokenKind) -> Result<State, StepFault>
    ensures { Gives view.state result (reading.step_free (view.frames stack) token.now) }
{
    match token {
        TokenKind::Date(date) => {
            let items = closed(stack)?;
            dated(alloc, *date, items)
        }
        TokenKind::Word(letters) => step_word(alloc, stack, letters),
        TokenKind::Key(Key::Schedule) => step_schedule(alloc, stack),
        TokenKind::Key(Key::End) => step_end(alloc, stack),
        TokenKind::Key(Key::If) => step_if(alloc, stack),
        TokenKind::Key(Key::Else) => step_else(alloc, stack),
        TokenKind::Key(Key::Endif) => step_endif(alloc, stack),
        _ => Err(StepFault::NotScript),
    }
}

/// The state after a token that stands after `endif`: a `;`, or what stands between statements.
///
/// # Errors
///
/// `NotScript` where the token can't stand there, and `NoMemory` where there was no memory for what it adds.
pub fn step_after_endif(alloc: Global, stack: Stack, token: &TokenKind) -> Result<State, StepFault>
    ensures { Gives view.state result (reading.step_after_endif (view.frames stack) token.now) }
{
    match token {
        TokenKind::Sign(Sign::Semicolon) => Ok(State {
            stack,
            mode: Mode::Free,
        }),
        TokenKind::Date(_) => step_free(alloc, stack, token),
        TokenKind::Word(_) => step_free(alloc, stack, token),
        TokenKind::Key(_) => step_free(alloc, stack, token),
        _ => Err(StepFault::NotScript),
    }
}

/// The state after a token that stands after a statement's name: `=` or `pays`.
///
/// # Errors
///
/// `NotScript` where the token can't stand there, and `NoMemory` where there was no memory for the statement's frame.
pub fn step_named(
    alloc: Global,
    stack: Stack,
    name: Name,
    token: &TokenKind,
) -> Result<State, StepFault>
    ensures { Gives view.state result (reading.step_named (view.frames stack) name token.now) }
{
    match token {
        TokenKind::Sign(Sign::Equals) => opened(
            alloc,
            stack,
            Frame::Statement(Head::Assigns(name)),
        ),
        TokenKind::Key(Key::Pays) => opened(alloc, stack, Frame::Statement(Head::Pays(name))),
        _ => Err(StepFault::NotScript),
    }
}

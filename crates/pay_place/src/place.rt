//! Where in a script the parser stands: what is open, and what is awaited.

ghost use Rattle.std.specs.Prelude.{◌≡◌, ◌∷◌, [], Some, None, MatchOption};
ghost use Rattle.pay_meaning.specs.Language.{Number, done};
ghost use Rattle.pay_grammar.specs.Reading as reading;
ghost use Rattle.pay_place.specs.ReadingViews as view;
ghost use Rattle.pay_place.specs.ReadingViews.{Gives};

use crate::step_fault::StepFault;
use pay_dates::{Day, Rule, Unit};
use pay_tree::{Binary, Compare, Cond, Expr, Item, Name, Stmt};
use std::alloc::Global;

/// What a statement does with its number.
#[derive(Drop)]
pub enum Head {
    /// It gives it to this variable.
    Assigns(Name),
    /// It pays it to this leg.
    Pays(Name),
}

/// What stands left of a term in its number.
#[derive(Drop)]
pub enum Sum {
    /// Nothing: the term is the first.
    Nothing,
    /// A number and `+`.
    Plus(Expr),
    /// A number and `-`.
    Minus(Expr),
}

/// What stands left of a factor in its term.
#[derive(Drop)]
pub enum Product {
    /// Nothing: the factor is the first.
    Nothing,
    /// A term and `*`.
    Times(Expr),
    /// A term and `/`.
    Over(Expr),
}

/// A sign before an atom.
#[derive(Clone, Copy)]
pub enum Prefix {
    /// `-`.
    Minus,
}

/// What stands left of an atom.
#[derive(Drop)]
pub struct Before {
    /// What stands left of its term.
    pub sum: Sum,
    /// What stands left of its factor.
    pub product: Product,
    /// The minus signs of its factor: a list, so that nothing but memory bounds their count.
    pub signs: Vec<Prefix>,
}

/// A word before a comparison.
#[derive(Clone, Copy)]
pub enum Negation {
    /// `not`.
    Not,
}

/// What stands left of a comparison in its condition.
#[derive(Drop)]
pub struct Logic {
    /// The condition that stands before an `or`, if one does.
    pub ors: Option<Cond>,
    /// The condition that stands before an `and`, if one does.
    pub ands: Option<Cond>,
    /// The `not`s of the comparison: a list, so that nothing but memory bounds their count.
    pub nots: Vec<Negation>,
}

/// What opened a condition.
#[derive(Clone, Copy)]
pub enum Opening {
    /// An `if`.
    If,
    /// A bracket that stands where a comparison may begin, which may turn out to be that of a number.
    Bracket,
}

/// What a condition so far ends in.
#[derive(Drop)]
pub enum Tail {
    /// A condition in brackets, which is made.
    Made(Cond),
    /// A comparison of this number with the one that a term ends after a sum, which is made once it is known that it may end.
    Compared(Compare, Expr, Sum, Expr),
}

/// The terms of a schedule.
#[derive(Clone, Copy)]
pub struct Terms {
    /// The first date.
    pub first: Day,
    /// The last date.
    pub last: Day,
    /// The step: how many units lie between two dates.
    pub every: u64,
    /// The unit of the step.
    pub unit: Unit,
    /// Where a date on a weekend moves.
    pub rule: Rule,
}

/// What is awaited in the terms of a schedule, after what is read of them.
#[derive(Clone, Copy)]
pub enum Heading {
    /// `from`.
    From,
    /// The first date.
    First,
    /// `to`, after the first date.
    To(Day),
    /// The last date, after the first.
    Last(Day),
    /// `every`, after the two dates.
    Every(Day, Day),
    /// The count of units in a step, after the two dates.
    Count(Day, Day),
    /// The unit, after the dates and the count.
    Unit(Day, Day, u64),
    /// A rule or `do`, after the dates, the count and the unit.
    Rule(Day, Day, u64, Unit),
    /// `do`.
    Do(Terms),
}

/// What statements belong to.
#[derive(Drop)]
pub enum Owner {
    /// An item on this date.
    Item(Day),
    /// A schedule of these terms.
    Schedule(Terms),
    /// The first branch of an `if` with this condition.
    Yes(Cond),
    /// The second branch of an `if` with this condition and this first branch.
    No(Cond, Vec<Stmt>),
}

/// What is open within a script.
#[derive(Drop)]
pub enum Frame {
    /// Statements so far, and what they belong to.
    Body(Owner, Vec<Stmt>),
    /// A statement that awaits its number.
    Statement(Head),
    /// A condition, by what opened it, with what stands left of a comparison in it.
    Condition(Opening, Logic),
    /// A comparison that awaits its right number, with its left one.
    Comparison(Compare, Expr),
    /// A bracket.
    Bracket(Before),
    /// The bracket of `abs`.
    Absolute(Before),
    /// The bracket of `min` or `max`, with the number that its arguments so far give.
    Extreme(Binary, Before, Option<Expr>),
}

/// What is open: a script, and the frames in it.
#[derive(Drop)]
pub struct Stack {
    /// The items of the script so far.
    pub items: Vec<Item>,
    /// The frames, the innermost last.
    pub frames: Vec<Frame>,
}

/// The innermost part of what is open.
#[derive(Drop)]
pub enum Innermost {
    /// The script itself, with its items so far.
    Script(Vec<Item>),
    /// A frame, and what it stands in.
    Frame(Frame, Stack),
}

/// Statements so far, taken off what is open.
#[derive(Drop)]
pub struct Block {
    /// What they stand in.
    pub outer: Stack,
    /// What they belong to.
    pub owner: Owner,
    /// The statements so far.
    pub body: Vec<Stmt>,
}

/// A statement that awaits its number, taken off what is open together with the statements before it.
#[derive(Drop)]
pub struct Unfinished {
    /// What the statements stand in.
    pub outer: Stack,
    /// What the statements belong to.
    pub owner: Owner,
    /// The statements before it.
    pub body: Vec<Stmt>,
    /// What the statement does with its number.
    pub head: Head,
}

/// A condition so far, taken off what is open.
#[derive(Drop)]
pub struct OpenCondition {
    /// What it stands in.
    pub outer: Stack,
    /// What opened it.
    pub opening: Opening,
    /// What stands left of a comparison in it.
    pub logic: Logic,
}

/// A statement whose number is open, taken off what is open.
#[derive(Drop)]
pub struct OpenStatement {
    /// What it stands in.
    pub outer: Stack,
    /// What it does with its number.
    pub head: Head,
}

/// What is awaited.
#[derive(Drop)]
pub enum Mode {
    /// A statement or an item, or the end of a branch or of a schedule.
    Free,
    /// A word, a date or a count in the terms of a schedule.
    Heading(Heading),
    /// The same or a `;`, after `endif`.
    AfterEndif,
    /// What follows the name that begins a statement.
    Named(Name),
    /// A factor.
    FactorNext(Before),
    /// What follows a factor, which ends this term after this sum.
    After(Sum, Expr),
    /// What follows this condition in brackets.
    AfterCondition(Cond),
    /// The bracket that opens this frame.
    BracketNext(Frame),
    /// The two brackets after the word that stands for this number.
    CallNamed(Expr, Before),
    /// The second of them.
    CallOpened(Expr, Before),
}

/// Where the reading of a script stands.
#[derive(Drop)]
pub struct State {
    /// What is open.
    pub stack: Stack,
    /// What is awaited.
    pub mode: Mode,
}

/// A script between its items.
#[tactic(auto, using(crate::proofs::StackLemmas::stack_laws))]
pub fn between_items(alloc: Global, items: Vec<Item>) -> Stack
    ensures { view.frames result ≡ reading.a_script (view.items items) ∷ [] }
{
    Stack {
        items,
        frames: Vec::new(alloc),
    }
}

/// The state before a script.
pub fn start(alloc: Global) -> State
    ensures { view.state result ≡ reading.start }
{
    State {
        stack: between_items(alloc, Vec::new(alloc)),
        mode: Mode::Free,
    }
}

/// What is open, with one more frame.
///
/// # Errors
///
/// `NoMemory` where there was no memory for the frame.
#[tactic(auto, using(crate::proofs::StackLemmas::stack_laws))]
pub fn pushed(mut stack: Stack, frame: Frame) -> Result<Stack, StepFault>
    ensures { Gives view.frames result (Some (view.frame frame ∷ view.frames stack)) }
{
    stack.frames.push(frame)?;
    Ok(stack)
}

/// The innermost part of what is open, and what it stands in.
#[tactic(auto, using(crate::proofs::StackLemmas::stack_laws))]
pub fn innermost_of(mut stack: Stack) -> Innermost
    ensures { view.innermost result ≡ view.frames stack }
{
    match stack.frames.pop() {
        None => Innermost::Script(stack.items),
        Some(frame) => Innermost::Frame(frame, stack),
    }
}

/// The state before the first of some statements.
///
/// # Errors
///
/// `NoMemory` where there was no memory for their frame.
pub fn begun_body(alloc: Global, stack: Stack, owner: Owner) -> Result<State, StepFault>
    ensures { Gives view.state result (Some (reading.state (reading.a_body (view.owner owner) done ∷ view.frames stack) reading.free)) }
{
    let body = Vec::new(alloc);
    let stack = pushed(stack, Frame::Body(owner, body))?;
    Ok(State {
        stack,
        mode: Mode::Free,
    })
}

/// The state after what opens a frame, where a factor is awaited in it.
///
/// # Errors
///
/// `NoMemory` where there was no memory for the frame.
pub fn opened(alloc: Global, stack: Stack, frame: Frame) -> Result<State, StepFault>
    ensures { Gives view.state result (Some (reading.state (view.frame frame ∷ view.frames stack) (reading.factor_next reading.fresh))) }
{
    let stack = pushed(stack, frame)?;
    Ok(State {
        stack,
        mode: Mode::FactorNext(fresh(alloc)),
    })
}

/// The items of the script that is innermost, if no frame is open in it.
pub fn script_of(stack: Stack) -> Option<Vec<Item>>
    ensures { MatchOption result (view.HasFrame (view.frames stack)) (λ items. view.frames stack ≡ reading.a_script (view.items items) ∷ []) }
{
    match innermost_of(stack) {
        Innermost::Script(items) => Some(items),
        other => {
            drop(other);
            None
        }
    }
}

/// The statements that are innermost, if some are.
pub fn block_of(stack: Stack) -> Option<Block>
    ensures { MatchOption result (view.HasNoBody (view.frames stack)) (λ block. view.block block ≡ view.frames stack) }
{
    match innermost_of(stack) {
        Innermost::Frame(frame, outer) => match frame {
            Frame::Body(owner, body) => Some(Block { outer, owner, body }),
            other => {
                drop(other);
                None
            }
        },
        other => {
            drop(other);
            None
        }
    }
}

/// The condition that is innermost, if one is.
pub fn open_condition_of(stack: Stack) -> Option<OpenCondition>
    ensures { MatchOption result (view.HasNoCondition (view.frames stack)) (λ condition. view.open_condition condition ≡ view.frames stack) }
{
    match innermost_of(stack) {
        Innermost::Frame(frame, outer) => match frame {
            Frame::Condition(opening, logic) => Some(OpenCondition {
                outer,
                opening,
                logic,
            }),
            other => {
                drop(other);
                None
            }
        },
        other => {
            drop(other);
            None
        }
    }
}

/// The statement that awaits its number, if one is innermost.
fn open_statement_of(stack: Stack) -> Option<OpenStatement>
    ensures { MatchOption result ((number : Number) → reading.ended (view.frames stack) number ≡ None)
        (λ statement. view.open_statement statement ≡ view.frames stack) }
{
    match innermost_of(stack) {
        Innermost::Frame(frame, outer) => match frame {
            Frame::Statement(head) => Some(OpenStatement { outer, head }),
            other => {
                drop(other);
                None
            }
        },
        other => {
            drop(other);
            None
        }
    }
}

/// The statement that awaits its number with the statements before it, if one does.
pub fn unfinished_of(stack: Stack) -> Option<Unfinished>
    ensures { MatchOption result ((number : Number) → reading.ended (view.frames stack) number ≡ None)
        (λ statement. view.unfinished statement ≡ view.frames stack) }
{
    match open_statement_of(stack) {
        None => None,
        Some(statement) => {
            let OpenStatement { outer, head } = statement;
            match block_of(outer) {
                None => None,
                Some(block) => {
                    let Block { outer, owner, body } = block;
                    Some(Unfinished {
                        outer,
                        owner,
                        body,
                        head,
                    })
                }
            }
        }
    }
}

/// Nothing, left of the first atom of a number.
pub fn fresh(alloc: Global) -> Before
    ensures { view.before result ≡ reading.fresh }
{
    before_factor(alloc, Sum::Nothing, Product::Nothing)
}

/// What stands left of a factor that has no minus sign yet.
pub fn before_factor(alloc: Global, sum: Sum, product: Product) -> Before
    ensures { view.before result ≡ reading.before (view.sum sum) (view.product product) 0 }
{
    Before {
        sum,
        product,
        signs: Vec::new(alloc),
    }
}

/// The same with one more minus sign.
///
/// # Errors
///
/// `NoMemory` where there was no memory for the sign.
pub fn with_sign(mut left: Before) -> Result<Before, StepFault>
    ensures { Gives view.before result (Some (reading.with_sign (view.before left))) }
{
    left.signs.push(Prefix::Minus)?;
    Ok(left)
}

/// Whether nothing stands left of an atom.
pub fn is_fresh(left: &Before) -> bool
    ensures { result ≡ reading.is_fresh (view.before left.now) }
{
    match left.sum {
        Sum::Nothing => match left.product {
            Product::Nothing => left.signs.is_empty(),
            _ => false,
        },
        _ => false,
    }
}

//! What stands left of a comparison in its condition, and the conditions that the parser makes.

ghost use Rattle.std.specs.Prelude.{◌≡◌, Some, None, List, length, option_map, if◌then◌else◌};
ghost use Rattle.pay_meaning.specs.Language.{Number, compare as compared, bare, negation, conjunction, disjunction};
ghost use Rattle.pay_tree.specs.Views as tree_of;
ghost use Rattle.pay_grammar.specs.Reading as reading;
ghost use Rattle.pay_grammar.specs.Reading.{Frame};
ghost use Rattle.pay_place.specs.ReadingViews as view;
ghost use Rattle.pay_place.specs.ReadingViews.{Gives};

use crate::number::summed;
use crate::place::{Logic, Negation, Tail};
use crate::step_fault::StepFault;
use pay_tree::{Compare, Cond, Expr};
use std::alloc::Global;

/// The condition that two numbers compared are.
///
/// # Errors
///
/// `NoMemory` where there was no memory for it.
pub fn compare(alloc: Global, operator: Compare, left: Expr, right: Expr) -> Result<Cond, StepFault>
    ensures { Gives tree_of.condition result
        (Some (compared (tree_of.comparison operator) (tree_of.number left) (tree_of.number right) bare)) }
{
    let left = Box::new(alloc, left)?;
    let right = Box::new(alloc, right)?;
    Ok(Cond::Compare(operator, left, right))
}

/// The negation of a condition.
///
/// # Errors
///
/// `NoMemory` where there was no memory for it.
pub fn negate(alloc: Global, side: Cond) -> Result<Cond, StepFault>
    ensures { Gives tree_of.condition result (Some (negation (tree_of.condition side))) }
{
    let side = Box::new(alloc, side)?;
    Ok(Cond::Not(side))
}

/// The conjunction of two conditions.
///
/// # Errors
///
/// `NoMemory` where there was no memory for it.
pub fn both(alloc: Global, left: Cond, right: Cond) -> Result<Cond, StepFault>
    ensures { Gives tree_of.condition result (Some (conjunction (tree_of.condition left) (tree_of.condition right))) }
{
    let left = Box::new(alloc, left)?;
    let right = Box::new(alloc, right)?;
    Ok(Cond::And(left, right))
}

/// The disjunction of two conditions.
///
/// # Errors
///
/// `NoMemory` where there was no memory for it.
pub fn either(alloc: Global, left: Cond, right: Cond) -> Result<Cond, StepFault>
    ensures { Gives tree_of.condition result (Some (disjunction (tree_of.condition left) (tree_of.condition right))) }
{
    let left = Box::new(alloc, left)?;
    let right = Box::new(alloc, right)?;
    Ok(Cond::Or(left, right))
}

/// A comparison with `not`s before it.
///
/// # Errors
///
/// `NoMemory` where there was no memory for it.
pub fn negated_by(alloc: Global, nots: &[Negation], mut condition: Cond) -> Result<Cond, StepFault>
    ensures { Gives tree_of.condition result (Some (reading.negated_by (length nots.now) (tree_of.condition condition))) }
{
    for _ in nots {
        condition = negate(alloc, condition)?;
    }
    Ok(condition)
}

/// The conjunction that a condition ends, from what stands left of it.
///
/// # Errors
///
/// `NoMemory` where there was no memory for it.
pub fn conjoined(alloc: Global, ands: Option<Cond>, condition: Cond) -> Result<Cond, StepFault>
    ensures { Gives tree_of.condition result (Some (reading.conjoined (option_map tree_of.condition ands) (tree_of.condition condition))) }
{
    match ands {
        None => Ok(condition),
        Some(left) => both(alloc, left, condition),
    }
}

/// The condition that a conjunction ends, from what stands left of it.
///
/// # Errors
///
/// `NoMemory` where there was no memory for it.
pub fn disjoined(alloc: Global, ors: Option<Cond>, condition: Cond) -> Result<Cond, StepFault>
    ensures { Gives tree_of.condition result (Some (reading.disjoined (option_map tree_of.condition ors) (tree_of.condition condition))) }
{
    match ors {
        None => Ok(condition),
        Some(left) => either(alloc, left, condition),
    }
}

/// The condition that a condition so far ends in.
///
/// # Errors
///
/// `NoMemory` where there was no memory for it.
pub fn made(alloc: Global, tail: Tail) -> Result<Cond, StepFault>
    ensures { Gives tree_of.condition result (Some (view.tail tail)) }
{
    match tail {
        Tail::Made(condition) => Ok(condition),
        Tail::Compared(operator, left, sum, term) => {
            let right = summed(alloc, sum, term)?;
            compare(alloc, operator, left, right)
        }
    }
}

/// The conjunction that a condition so far ends, with its `not`s, from what stands left of it.
///
/// # Errors
///
/// `NoMemory` where there was no memory for it.
fn conjunction_of(
    alloc: Global,
    ands: Option<Cond>,
    nots: &[Negation],
    tail: Tail,
) -> Result<Cond, StepFault>
    ensures { Gives tree_of.condition result
        (Some (reading.conjoined (option_map tree_of.condition ands) (reading.negated_by (length nots.now) (view.tail tail)))) }
{
    let condition = made(alloc, tail)?;
    let negated = negated_by(alloc, nots, condition)?;
    conjoined(alloc, ands, negated)
}

/// Nothing, left of the first comparison of a condition.
pub fn no_logic(alloc: Global) -> Logic
    ensures { view.logic result ≡ reading.no_logic }
{
    Logic {
        ors: None,
        ands: None,
        nots: Vec::new(alloc),
    }
}

/// The condition that a condition so far ends.
///
/// # Errors
///
/// `NoMemory` where there was no memory for it.
pub fn condition_of(alloc: Global, logic: Logic, tail: Tail) -> Result<Cond, StepFault>
    ensures { Gives tree_of.condition result (Some (reading.condition_of (view.logic logic) (view.tail tail))) }
{
    let Logic { ors, ands, nots } = logic;
    let conjunction = conjunction_of(alloc, ands, &nots, tail)?;
    disjoined(alloc, ors, conjunction)
}

/// What stands left of the next comparison after `and`.
///
/// # Errors
///
/// `NoMemory` where there was no memory for it.
pub fn with_and(alloc: Global, logic: Logic, tail: Tail) -> Result<Logic, StepFault>
    ensures { Gives view.logic result (Some (reading.with_and (view.logic logic) (view.tail tail))) }
{
    let Logic { ors, ands, nots } = logic;
    let conjunction = conjunction_of(alloc, ands, &nots, tail)?;
    Ok(Logic {
        ors,
        ands: Some(conjunction),
        nots: Vec::new(alloc),
    })
}

/// What stands left of the next comparison after `or`.
///
/// # Errors
///
/// `NoMemory` where there was no memory for it.
pub fn with_or(alloc: Global, logic: Logic, tail: Tail) -> Result<Logic, StepFault>
    ensures { Gives view.logic result (Some (reading.with_or (view.logic logic) (view.tail tail))) }
{
    let disjunction = condition_of(alloc, logic, tail)?;
    Ok(Logic {
        ors: Some(disjunction),
        ands: None,
        nots: Vec::new(alloc),
    })
}

/// What stands left of a comparison, with one more `not`.
///
/// # Errors
///
/// `NoMemory` where there was no memory for it.
pub fn with_not(mut logic: Logic) -> Result<Logic, StepFault>
    ensures { Gives view.logic result (Some (reading.with_not (view.logic logic))) }
{
    logic.nots.push(Negation::Not)?;
    Ok(logic)
}

/// Whether nothing stands left of a comparison: then a bracket before a number may be that of the number.
pub fn is_no_logic(logic: &Logic) -> bool
    ensures { (rest : List Frame) (number : Number) → reading.step_number_group reading.of_bracket (view.logic logic.now) rest number
        ≡ (if result then Some (reading.arrived rest reading.fresh number) else None) }
{
    match logic.ors {
        None => match logic.ands {
            None => logic.nots.is_empty(),
            Some(_) => false,
        },
        Some(_) => false,
    }
}

//! The numbers and statements that the parser makes.

ghost use Rattle.std.specs.Prelude.{◌≡◌, Some, length, option_map};
ghost use Rattle.pay_meaning.specs.Language.{binary as calculated};
ghost use Rattle.pay_tree.specs.Views as tree_of;
ghost use Rattle.pay_grammar.specs.Reading as reading;
ghost use Rattle.pay_place.specs.ReadingViews as view;
ghost use Rattle.pay_place.specs.ReadingViews.{Gives};

use crate::place::{Before, Head, Mode, Prefix, Product, Stack, State, Sum};
use crate::step_fault::StepFault;
use pay_tree::{Binary, Expr, Stmt, Unary};
use std::alloc::Global;

/// The number of a number under an operator.
///
/// # Errors
///
/// `NoMemory` where there was no memory for it.
pub fn unary(alloc: Global, operator: Unary, side: Expr) -> Result<Expr, StepFault>
    ensures { Gives tree_of.number result (Some (tree_of.signed operator (tree_of.number side))) }
{
    let side = Box::new(alloc, side)?;
    Ok(Expr::Unary(operator, side))
}

/// The number of two numbers under an operator.
///
/// # Errors
///
/// `NoMemory` where there was no memory for it.
pub fn binary(alloc: Global, operator: Binary, left: Expr, right: Expr) -> Result<Expr, StepFault>
    ensures { Gives tree_of.number result (Some (calculated (tree_of.operator operator) (tree_of.number left) (tree_of.number right))) }
{
    let left = Box::new(alloc, left)?;
    let right = Box::new(alloc, right)?;
    Ok(Expr::Binary(operator, left, right))
}

/// The number that a term ends, from what stands left of it.
///
/// # Errors
///
/// `NoMemory` where there was no memory for it.
pub fn summed(alloc: Global, sum: Sum, term: Expr) -> Result<Expr, StepFault>
    ensures { Gives tree_of.number result (Some (reading.summed (view.sum sum) (tree_of.number term))) }
{
    match sum {
        Sum::Nothing => Ok(term),
        Sum::Plus(left) => binary(alloc, Binary::Add, left, term),
        Sum::Minus(left) => binary(alloc, Binary::Sub, left, term),
    }
}

/// The term that a factor ends, from what stands left of it.
///
/// # Errors
///
/// `NoMemory` where there was no memory for it.
pub fn multiplied(alloc: Global, product: Product, factor: Expr) -> Result<Expr, StepFault>
    ensures { Gives tree_of.number result (Some (reading.multiplied (view.product product) (tree_of.number factor))) }
{
    match product {
        Product::Nothing => Ok(factor),
        Product::Times(left) => binary(alloc, Binary::Mul, left, factor),
        Product::Over(left) => binary(alloc, Binary::Div, left, factor),
    }
}

/// An atom with minus signs before it.
///
/// # Errors
///
/// `NoMemory` where there was no memory for it.
pub fn signed_by(alloc: Global, signs: &[Prefix], mut atom: Expr) -> Result<Expr, StepFault>
    ensures { Gives tree_of.number result (Some (reading.signed_by (length signs.now) (tree_of.number atom))) }
{
    for _ in signs {
        atom = unary(alloc, Unary::Neg, atom)?;
    }
    Ok(atom)
}

/// The number of the arguments so far, with one more.
///
/// # Errors
///
/// `NoMemory` where there was no memory for it.
pub fn with_argument(
    alloc: Global,
    operator: Binary,
    first: Option<Expr>,
    argument: Expr,
) -> Result<Expr, StepFault>
    ensures { Gives tree_of.number result (Some (reading.with_argument (tree_of.operator operator)
        (option_map tree_of.number first) (tree_of.number argument))) }
{
    match first {
        None => Ok(argument),
        Some(first) => binary(alloc, operator, first, argument),
    }
}

/// The statement with this number.
pub fn headed(head: Head, value: Expr) -> Stmt
    ensures { tree_of.statement result ≡ reading.headed (view.head head) (tree_of.number value) }
{
    match head {
        Head::Assigns(name) => Stmt::Assign { name, value },
        Head::Pays(leg) => Stmt::Pay { leg, amount: value },
    }
}

/// The state after an atom.
///
/// # Errors
///
/// `NoMemory` where there was no memory for its term.
pub fn arrived(alloc: Global, stack: Stack, left: Before, atom: Expr) -> Result<State, StepFault>
    ensures { Gives view.state result (Some (reading.arrived (view.frames stack) (view.before left) (tree_of.number atom))) }
{
    let Before {
        sum,
        product,
        signs,
    } = left;
    let factor = signed_by(alloc, &signs, atom)?;
    let term = multiplied(alloc, product, factor)?;
    Ok(State {
        stack,
        mode: Mode::After(sum, term),
    })
}

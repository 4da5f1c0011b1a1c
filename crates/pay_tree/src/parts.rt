//! The parts of a script in the order of the text: its statements, and the conditions and the numbers in them.

ghost use Rattle.std.specs.Prelude.{◌≡◌, ◌∷◌, [], ◌++◌, IfOk, OnOk, map};
ghost use Rattle.std.specs.Option.{option_map};
ghost use Rattle.pay_meaning.specs.Parts.{a_number, as_variable, as_leg, name_in};
ghost use Rattle.pay_meaning.specs.Parts.{number_parts, condition_parts, statement_parts, body_parts, item_parts, script_parts};
ghost use Rattle.pay_tree.specs.Views as view;
ghost use Rattle.pay_tree.specs.PartViews.{part, role};

use crate::name::Name;
use crate::tree::{Cond, Expr, Item, Script, Stmt};
use pay_fixed::NoMemory;
use std::alloc::Global;

/// A part of a script.
#[derive(Clone, Copy)]
pub enum Part<'a> {
    /// A number of a statement or of a condition.
    Number(&'a Expr),
    /// A condition of a statement.
    Condition(&'a Cond),
    /// A statement.
    Statement(&'a Stmt),
}

/// What a name is used for.
#[derive(Clone, Copy)]
pub enum Role {
    /// A variable, which is assigned or read.
    Variable,
    /// A leg, which is paid.
    Leg,
}

impl<'a> Part<'a> {
    /// The name that it uses itself in this role, if it does.
    pub fn name_in(self, asked: Role) -> Option<&'a Name>
        ensures { option_map (λ name. name.now) result ≡ name_in (role asked) (part self.entry) }
    {
        match asked {
            Role::Variable => self.variable(),
            Role::Leg => self.leg(),
        }
    }

    /// The variable that it reads or assigns itself.
    fn variable(self) -> Option<&'a Name>
        ensures { option_map (λ name. name.now) result ≡ name_in as_variable (part self.entry) }
    {
        match self {
            Part::Number(number) => variable_of(number),
            Part::Condition(_) => None,
            Part::Statement(statement) => match statement {
                Stmt::Assign { name, value: _ } => Some(name),
                Stmt::Pay { .. } | Stmt::If { .. } => None,
            },
        }
    }

    /// The leg that it pays itself.
    fn leg(self) -> Option<&'a Name>
        ensures { option_map (λ name. name.now) result ≡ name_in as_leg (part self.entry) }
    {
        match self {
            Part::Number(_) | Part::Condition(_) => None,
            Part::Statement(statement) => match statement {
                Stmt::Assign { .. } | Stmt::If { .. } => None,
                Stmt::Pay { leg, amount: _ } => Some(leg),
            },
        }
    }
}

/// The variable that a number is.
fn variable_of(number: &Expr) -> Option<&Name>
    ensures { option_map (λ name. name.now) result ≡ name_in as_variable (a_number (view.number number.now)) }
{
    match number {
        Expr::Name(name) => Some(name),
        Expr::Number(_)
        | Expr::Spot
        | Expr::Period
        | Expr::Days
        | Expr::Unary(_, _)
        | Expr::Binary(_, _, _) => None,
    }
}

/// The parts of a script, in the order of the text.
///
/// # Errors
///
/// [`NoMemory`] where there was no memory for the list.
pub fn parts_of(alloc: Global, tree: &Script) -> Result<Vec<Part<'_>>, NoMemory>
    ensures { IfOk result (λ parts. map part parts.items ≡ script_parts (view.script tree.now)) }
{
    let mut parts = Vec::new(alloc);
    for item in &tree.items {
        add_item(&mut parts, item)?;
    }
    Ok(parts)
}

/// Appends the parts of an item.
fn add_item<'a>(parts: &mut Vec<Part<'a>>, item: &'a Item) -> Result<(), NoMemory>
    ensures { OnOk result (map part parts.new.items ≡ map part parts.old.items ++ item_parts (view.item item.now)) }
{
    match item {
        Item::Plain { body, .. } | Item::Schedule { body, .. } => add_body(parts, body),
    }
}

/// Appends the parts of statements.
#[cycle(statements)]
fn add_body<'a>(parts: &mut Vec<Part<'a>>, body: &'a [Stmt]) -> Result<(), NoMemory>
    ensures { OnOk result (map part parts.new.items ≡ map part parts.old.items ++ body_parts (view.body body.now)) }
{
    for statement in body {
        add_statement(parts, statement)?;
    }
    Ok(())
}

/// Appends a statement and the parts of its number, or of its condition and its branches.
#[cycle(statements)]
fn add_statement<'a>(parts: &mut Vec<Part<'a>>, statement: &'a Stmt) -> Result<(), NoMemory>
    ensures { OnOk result (map part parts.new.items ≡ map part parts.old.items ++ statement_parts (view.statement statement.now)) }
{
    add_part(parts, Part::Statement(statement))?;
    match statement {
        Stmt::Assign { name: _, value } => add_number(parts, value),
        Stmt::Pay { leg: _, amount } => add_number(parts, amount),
        Stmt::If { cond, yes, no } => {
            add_condition(parts, cond)?;
            add_body(parts, yes)?;
            add_body(parts, no)
        }
    }
}

/// Appends a condition and the parts of its sides.
fn add_condition<'a>(parts: &mut Vec<Part<'a>>, condition: &'a Cond) -> Result<(), NoMemory>
    ensures { OnOk result (map part parts.new.items ≡ map part parts.old.items ++ condition_parts (view.condition condition.now)) }
{
    add_part(parts, Part::Condition(condition))?;
    match condition {
        Cond::Compare(_, left, right) => {
            add_number(parts, left)?;
            add_number(parts, right)
        }
        Cond::Not(side) => add_condition(parts, side),
        Cond::And(left, right) | Cond::Or(left, right) => {
            add_condition(parts, left)?;
            add_condition(parts, right)
        }
    }
}

/// Appends a number and the parts of its sides.
fn add_number<'a>(parts: &mut Vec<Part<'a>>, number: &'a Expr) -> Result<(), NoMemory>
    ensures { OnOk result (map part parts.new.items ≡ map part parts.old.items ++ number_parts (view.number number.now)) }
{
    add_part(parts, Part::Number(number))?;
    match number {
        Expr::Unary(_, side) => add_number(parts, side),
        Expr::Binary(_, left, right) => {
            add_number(parts, left)?;
            add_number(parts, right)
        }
        Expr::Number(_) | Expr::Name(_) | Expr::Spot | Expr::Period | Expr::Days => Ok(()),
    }
}

/// Appends a part.
fn add_part<'a>(parts: &mut Vec<Part<'a>>, one: Part<'a>) -> Result<(), NoMemory>
    ensures { OnOk result (map part parts.new.items ≡ map part parts.old.items ++ part one.entry ∷ []) }
{
    match parts.push(one) {
        Ok(()) => Ok(()),
        Err(_) => Err(NoMemory),
    }
}

//! The trees: operators, numbers, conditions, statements, items, scripts, and events with their names.

use crate::name::Name;
use pay_dates::{Day, Rule, Unit};
use pay_fixed::Fixed;

/// An operator with one side.
#[derive(Clone, Copy, PartialEq, Eq, Debug)]
pub enum Unary {
    /// `-number`.
    Neg,
    /// `abs(number)`.
    Abs,
}

/// An operator with two sides.
#[derive(Clone, Copy, PartialEq, Eq, Debug)]
pub enum Binary {
    /// `left + right`.
    Add,
    /// `left - right`.
    Sub,
    /// `left * right`.
    Mul,
    /// `left / right`.
    Div,
    /// `min(left, right)`.
    Min,
    /// `max(left, right)`.
    Max,
}

/// A number, as it is written.
#[derive(Drop)]
pub enum Expr {
    /// A literal, in raws of 1/10,000.
    Number(Fixed),
    /// The value of a variable.
    Name(Name),
    /// `spot()`, the fixing at the event's date.
    Spot,
    /// `period()`, the number of the step that gave the event, 0 in a plain item.
    Period,
    /// `days()`, the days since the date before in its schedule, 0 in a plain item.
    Days,
    /// A number under an operator.
    Unary(Unary, Box<Expr>),
    /// Two numbers under an operator, the left one first.
    Binary(Binary, Box<Expr>, Box<Expr>),
}

/// A comparison of two numbers.
#[derive(Clone, Copy, PartialEq, Eq, Debug)]
pub enum Compare {
    /// `left < right`.
    Less,
    /// `left <= right`.
    LessEq,
    /// `left > right`.
    More,
    /// `left >= right`.
    MoreEq,
    /// `left = right`.
    Same,
    /// `left != right`.
    Differs,
}

/// A condition, as it is written.
#[derive(Drop)]
pub enum Cond {
    /// Two numbers compared, the left one first.
    Compare(Compare, Box<Expr>, Box<Expr>),
    /// `not side`.
    Not(Box<Cond>),
    /// `left and right`.
    And(Box<Cond>, Box<Cond>),
    /// `left or right`.
    Or(Box<Cond>, Box<Cond>),
}

/// A statement of an event.
#[derive(Drop)]
pub enum Stmt {
    /// `name = value`: the variable takes the value.
    Assign {
        /// The variable.
        name: Name,
        /// The number that it takes.
        value: Expr,
    },
    /// `leg pays amount`: the leg pays the amount at the event's date.
    Pay {
        /// The leg.
        leg: Name,
        /// The number that it pays.
        amount: Expr,
    },
    /// `if cond then yes else no endif`: one of two branches, by a condition.
    If {
        /// The condition.
        cond: Cond,
        /// The statements that run where it is true, in the order of the text.
        yes: Vec<Stmt>,
        /// The statements that run where it is false, in the order of the text; none where there is no `else`.
        no: Vec<Stmt>,
    },
}

/// An item of a script.
#[derive(Drop)]
pub enum Item {
    /// Statements on one date.
    Plain {
        /// The date.
        date: Day,
        /// The statements, in the order of the text.
        body: Vec<Stmt>,
    },
    /// Statements on each date of a schedule.
    Schedule {
        /// The first date, from which all are counted; it gives no event.
        first: Day,
        /// The last date.
        last: Day,
        /// The step: how many units lie between two dates.
        every: u64,
        /// The unit of the step.
        unit: Unit,
        /// Where a date on a weekend moves.
        rule: Rule,
        /// The statements, in the order of the text.
        body: Vec<Stmt>,
    },
}

/// A script: its items, in the order of the text.
#[derive(Drop)]
pub struct Script {
    /// The items, in the order of the text.
    pub items: Vec<Item>,
}

/// An event: the statements of one date. A plain item gives one, and a schedule one for each of its dates.
#[derive(Drop)]
pub struct NamedEvent {
    /// The date of the event.
    pub date: Day,
    /// The number of the step that gave the event, from 1 on; 0 in a plain item.
    pub period: u32,
    /// The days since the date before in its schedule, whose first date is the one it is counted from; 0 in a plain item.
    pub days: u32,
    /// The statements, in the order of the text.
    pub body: Vec<Stmt>,
}

//! The trees that a compiler changes in place: variables and legs by number, and each number and test with its place in the text.

use crate::tree::{Binary, Compare, Unary};
use pay_dates::Day;
use pay_fixed::{Fixed, Smooth};

/// A number, with its place in its event.
#[derive(Drop)]
#[cycle(node)]
pub struct Node {
    /// Its place among the numbers and tests of its event in the order of the text, from 0; a number comes before its sides.
    pub id: u32,
    /// What it is.
    pub kind: NodeKind,
}

/// What a number is.
#[derive(Drop)]
#[cycle(node)]
pub enum NodeKind {
    /// A literal, in raws of 1/10,000.
    Number(Fixed),
    /// The value of the variable of this number.
    Slot(u32),
    /// `spot()`, the fixing at the event's date.
    Spot,
    /// A number under an operator.
    Unary(Unary, Box<Node>),
    /// Two numbers under an operator, the left one first.
    Binary(Binary, Box<Node>, Box<Node>),
}

/// A condition, with its place in its event.
#[derive(Drop)]
#[cycle(condition)]
pub struct Test {
    /// Its place among the numbers and tests of its event in the order of the text, from 0; a test comes before its sides.
    pub id: u32,
    /// Where it is `Some`, the test is asked for its fault alone, and this is its answer.
    pub sure: Option<bool>,
    /// What it is.
    pub kind: TestKind,
}

/// What a condition is.
#[derive(Drop)]
#[cycle(condition)]
pub enum TestKind {
    /// A truth literal.
    Truth(bool),
    /// Two numbers compared, the left one first.
    Compare {
        /// The comparison.
        op: Compare,
        /// The left number.
        left: Box<Node>,
        /// The right number.
        right: Box<Node>,
        /// How it weighs where it is smoothed.
        smooth: Option<Smooth>,
    },
    /// `not side`.
    Not(Box<Test>),
    /// `left and right`.
    And(Box<Test>, Box<Test>),
    /// `left or right`.
    Or(Box<Test>, Box<Test>),
}

/// A statement of an event.
#[derive(Drop)]
pub enum Step {
    /// The variable of this number takes the value.
    Assign {
        /// The number of the variable.
        slot: u32,
        /// The number that it takes.
        value: Node,
    },
    /// The leg of this number pays the amount at the event's date.
    Pay {
        /// The number of the leg.
        leg: u32,
        /// The number that it pays.
        amount: Node,
    },
    /// One of two branches, by a test.
    If {
        /// The test.
        test: Test,
        /// The steps that run where it is true, in their order.
        yes: Vec<Step>,
        /// The steps that run where it is false, in their order.
        no: Vec<Step>,
        /// The numbers of the variables that the branches assign, rising, once they are filled in.
        changes: Vec<u32>,
    },
    /// Its steps, in its place.
    Group(Vec<Step>),
}

/// An event: the steps of one date.
#[derive(Drop)]
pub struct Event {
    /// The date of the event.
    pub date: Day,
    /// The number of the step of its schedule that gave the event, from 1 on; 0 in a plain item.
    pub period: u32,
    /// The days since the date before in its schedule, whose first date is the one it is counted from; 0 in a plain item.
    pub days: u32,
    /// The steps, in their order.
    pub steps: Vec<Step>,
}

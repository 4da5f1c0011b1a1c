//! The operations of flat code.

use pay_fixed::{Fixed, Smooth};
use pay_tree::{Binary, Compare, Unary};

/// An operation of flat code. A place is an index into the whole code, from 0; each place that an operation names lies ahead of it.
///
/// Numbers work on one stack and conditions on another, the stack of weights. A statement starts and ends with both as they were.
#[derive(Clone, Copy, PartialEq, Eq, Debug)]
pub enum Op {
    /// Puts a literal on the stack of numbers, in raws of 1/10,000.
    Number(Fixed),
    /// Puts the value of the variable of this number on the stack of numbers.
    Slot(u32),
    /// Puts the fixing at the event's date on the stack of numbers, or faults where there is none.
    Spot,
    /// Takes a number, and puts back what the operator makes of it.
    Unary(Unary),
    /// Takes the right number and then the left one, and puts back what the operator makes of them.
    Binary(Binary),
    /// Puts the weight of a truth literal on the stack of weights.
    Truth(bool),
    /// Takes the right number and then the left one, and puts the weight of their comparison on the stack of weights.
    Compare {
        /// The comparison.
        op: Compare,
        /// How it weighs where it is smoothed; in a crisp program it is not read.
        smooth: Option<Smooth>,
    },
    /// Takes a weight, and puts back what it leaves of the whole.
    Not,
    /// Goes on at a place past the right side of `and` where the weight on top is nothing, and leaves it there.
    AndSkip {
        /// The place after the `AndJoin` of this `and`.
        to: u32,
    },
    /// Takes the weights of both sides of `and`, and puts back that of the two together.
    AndJoin,
    /// Goes on at a place past the right side of `or` where the weight on top is the whole, and leaves it there.
    OrSkip {
        /// The place after the `OrJoin` of this `or`.
        to: u32,
    },
    /// Takes the weights of both sides of `or`, and puts back that of either.
    OrJoin,
    /// Takes a weight, and puts the weight of this truth in its place.
    Sure(bool),
    /// Takes a number, and gives it to the variable of this number.
    Assign(u32),
    /// Takes a number, and pays it to the leg of this number.
    Pay(u32),
    /// Takes a weight and begins a choice: the true branch follows.
    If {
        /// The place of the false branch, which is the one after the `Else` of this choice.
        other: u32,
    },
    /// Ends the true branch of a choice: the false branch follows.
    Else {
        /// The place of the `EndIf` of this choice.
        after: u32,
    },
    /// Ends a choice, and names the variables that its branches assign: a part of the program's table of them.
    EndIf {
        /// The index of the first of them in the table.
        first: u32,
        /// How many they are.
        count: u32,
    },
    /// Ends an event.
    EndEvent,
}

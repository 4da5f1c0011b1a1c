//! The text of the steps that are left of an event once its tests are decided, as the command `explain` shows them.
//!
//! [`print_steps`] gives it. It has the form of the canonical text: an assignment or a payment is a line `x = 1.5;` or `leg pays 1.5;`, and an
//! `if` has its own line, the lines of its first branch two spaces further in, where its second branch has a step a line `else` and theirs, and a line
//! `endif`. It differs from it in what only such steps have, and in a comment:
//!
//! - The line of an `if` ends in the names of the variables in its list of changes, which are those that its branches assign, in the order of the
//!   variables, once the lists are filled: `if C then // changes x, y`, or `if C then // changes nothing`.
//! - A test whose truth is known is `true` or `false`, and one that is asked for its fault alone, its answer being known, `sure(true, C)` or
//!   `sure(false, C)`.
//! - A group has no line of its own: its steps stand in its place, and a branch of groups that are empty has no step.
//!
//! Proved: what it gives is the text of the steps.
//!
//! - `specs/StepText.antt`: the text of plain steps, by the names of variables and legs.
//! - `specs/TreeText.antt`: the same of owned steps, where variables and legs are numbers.
//! - [`laws`]: both texts are the same where each `if` has the variables that its branches assign.
#![tactic(auto)]

pub mod laws;
mod lines;
mod parts;
mod steps;
mod words;

pub use steps::print_steps;

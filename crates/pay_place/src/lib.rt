//! Where the reading of a script stands: what is open, as a stack of frames, and what is awaited, with the trees made so far.
//!
//! A [`State`] is a [`Stack`] and a [`Mode`]. In `@2024-06-28 a pays -(1 + 2` the frames are a bracket, with `-` left of it, in a statement that
//! pays `a`, in the statements of an item, in a script; and what is awaited is what follows a factor.
//!
//! ```
//! let state = start(alloc);
//! let stack = pushed(state.stack, Frame::Body(Owner::Item(date), Vec::new(alloc)))?;
//! let block = block_of(stack);
//! ```
//!
//! What the steps of the parser share stands here. What is open is taken off the stack by one function for each kind of frame, as [`block_of`] and
//! [`open_condition_of`], which answers `None` with all that then can't stand there. The numbers, statements and conditions that tokens end are made
//! from what stands left of them, as by [`summed`] and [`condition_of`]. A [`StepFault`] says why a token was not taken.
//!
//! Contracts see all this through `specs/ReadingViews.antt`, as the plain data of `specs/Reading.antt` of `pay_grammar`.
#![tactic(auto)]

mod logic;
mod number;
mod place;
mod step_fault;

pub use logic::{condition_of, is_no_logic, no_logic, with_and, with_not, with_or};
pub use number::{arrived, binary, headed, summed, unary, with_argument};
pub use place::{
    Before, Block, Frame, Head, Heading, Innermost, Logic, Mode, Negation, OpenCondition, Opening,
    Owner, Prefix, Product, Stack, State, Sum, Tail, Terms, Unfinished, before_factor, begun_body,
    between_items, block_of, fresh, innermost_of, is_fresh, open_condition_of, opened, pushed,
    script_of, start, unfinished_of, with_sign,
};
pub use step_fault::StepFault;

//! The reading of a script, one token at a time, with the trees made so far: [`start`] gives the state before the first token, [`step`] that after
//! one more, and [`finish`] the items of a script that ends.
//!
//! ```
//! let mut state = start(alloc);
//! for token in &tokens {
//!     state = step(alloc, state, &token.kind)?;
//! }
//! let items = finish(alloc, state)?;
//! ```
//!
//! A [`State`] has what is open, as a stack of frames, and what is awaited. In `@2024-06-28 a pays -(1 + 2` the frames are a bracket, with `-` left
//! of it, in a statement that pays `a`, in the statements of an item, in a script; and what is awaited is what follows a factor. No function is a
//! recursion over the grammar. A bracket that stands where a comparison may begin can be that of a condition or that of a number: what stands in it
//! shows which, so no token is read twice.
//!
//! A schedule, as `schedule from @2024-01-31 to @2024-07-31 every 1 m following do a pays 1 end`, is an item beside those on one date. Its terms are
//! read word by word: the count of its step is a number token without a point, and its unit is one of the names `d`, `w`, `m` and `y`, which stand
//! for variables and legs everywhere else. Its statements are read as those of any item, up to `end`.
//!
//! The steps are those of `specs/Reading.antt` of `pay_grammar`, seen by the views of `specs/ReadingViews.antt`; by the laws of that crate the items
//! are those of the script that the tokens spell. A step answers [`StepFault::NotScript`] exactly where the token can't stand there, and takes memory
//! only where it can. How deep a state grows is for its caller to bound.
#![tactic(auto)]

mod factors;
mod steps;

pub use pay_place::{State, StepFault, start};
pub use steps::{finish, step};

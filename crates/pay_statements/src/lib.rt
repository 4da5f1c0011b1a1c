//! The steps of the parser between statements: a date or `schedule` begins an item, a name or `if` a statement, `else` and `endif` end a branch, and
//! `end` a schedule.
//!
//! ```
//! let state = step_free(alloc, stack, &token)?;
//! ```
//!
//! Each of these tokens may also stand where a statement's number can end: then it ends the statement first, as in [`step_next_statement`]. What is
//! open is looked at before the number is made, so memory is taken only where the token may stand.
//!
//! The steps are those of `specs/Reading.antt` of `pay_grammar`, seen by the views of `pay_place`.
#![tactic(auto)]

mod endings;
mod schedule_bounds;
mod statements;

pub use endings::{
    finish_after, step_next_else, step_next_end, step_next_endif, step_next_if, step_next_item,
    step_next_schedule, step_next_statement, step_semicolon,
};
pub use statements::{closed, name_of, step_after_endif, step_free, step_named};

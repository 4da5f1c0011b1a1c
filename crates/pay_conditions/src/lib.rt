//! The steps of the parser in a condition: `not`, `and`, `or`, comparisons, brackets, and `then`, with which the condition of an `if` ends.
//!
//! ```
//! let state = step_condition(alloc, stack, Tail::Made(condition), &token)?;
//! ```
//!
//! A bracket that stands where a comparison may begin can be that of a condition or that of a number: what stands in it shows which. So [`step_open`]
//! opens it as that of a condition, and [`step_number_group`] makes it that of a number where `)` follows a number that is all of it.
//!
//! The steps are those of `specs/Reading.antt` of `pay_grammar`, seen by the views of `pay_place`.
#![tactic(auto)]

mod conditions;

pub use conditions::{
    step_compared, step_comparison, step_condition, step_group, step_not, step_number_group,
    step_open,
};

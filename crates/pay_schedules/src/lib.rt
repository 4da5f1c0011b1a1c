//! The steps of the parser in the terms of a schedule, word by word.
//!
//! ```
//! let state = step_heading(alloc, stack, Heading::From, &token)?;
//! ```
//!
//! In `schedule from @2024-01-31 to @2024-07-31 every 1 m following do` the count of the step is a number token without a point, and its unit is one
//! of the names `d`, `w`, `m` and `y`, which stand for variables and legs everywhere else. A rule may be left out. After `do` come the schedule's
//! statements.
//!
//! The steps are those of `specs/Reading.antt` of `pay_grammar`, seen by the views of `pay_place`.
#![tactic(auto)]

mod schedules;

pub use schedules::step_heading;

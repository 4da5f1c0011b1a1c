//! The events of a script: each plain item gives one, and each schedule one for each of its rolls.
//!
//! [`roll`] gives them in order of date. The script
//!
//! ```text
//! schedule from @2026-01-01 to @2026-03-01 every 1 m do
//!   fixed pays days();
//! end
//! @2026-02-10
//!   fixed pays 1;
//! ```
//!
//! has three events: on 2026-02-01, with period 1 and 31 days; on 2026-02-10, with period 0 and 0 days; and on 2026-03-01, with period
//! 2 and 28 days. The first and the third have copies of the schedule's statements.
//!
//! A script is refused for the first of these that there is: a bad schedule, whose first date isn't before its last or whose step isn't
//! of 1 to 999 units, which names the first such item; more than
//! 4,096 events; two events on one date, which names the earliest such date; more than 262,144 numbers, conditions and statements in
//! the events together; more than 16,384 payments in them. A statement of a schedule counts in each event that has it. All of this is
//! asked before any statement is copied, and dates and statements are counted no further than their limits: a short script of many
//! dates and a long body is refused without a copy of it.
//!
//! Proved: the events and the refusal are those of `specs/Rolling.antt`; the module [`laws`] proves of that definition that an accepted
//! script's events are apart and keep the limits, and that the schedule that is named is the first that is bad.
#![tactic(auto)]

pub mod laws;
mod limits;
mod order;
mod plan;
mod refusal;
mod rolling;

pub use refusal::{RollRefusal, What};
pub use rolling::roll;

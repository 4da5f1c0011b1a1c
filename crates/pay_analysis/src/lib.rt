//! What each part of an event can give: a walk over its trees.
//!
//! - [`Facts`]: the raws that each variable can have, and whether the fixing is known to be there.
//! - [`walk_event`]: the facts after an event, and a mark for each number and each test that the walk reaches.
//! - [`Mark`], [`Marks`]: what is known of a part in every run that evaluates it.
#![tactic(auto)]

mod branches;
mod facts;
pub mod laws;
mod marks;
mod slots;
mod walk_number;
mod walk_steps;
mod walk_test;

pub use facts::Facts;
pub use marks::{Mark, Marks};
pub use walk_steps::walk_event;

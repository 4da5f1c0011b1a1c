//! Events pruned by the marks of their parts, in place: numbers that can have one value alone, tests of which the answer is known, and branches that
//! are not taken.
//!
//! [`prune_event`] takes no memory and can't fail. What it makes of an event is told by the marks that it is given alone. [`simplify_event`] walks
//! through a copy of an event, prunes it by the marks of that walk, and fills in which variables are still changed.
//!
//! - `specs/Pruned.antt`: an event pruned by marks; what becomes of each of its parts is in `pay_simplified`.
//! - `specs/Simplifying.antt`: an event simplified from the raws of the variables before it.
//! - `specs/PruningPromise.antt`: what the pass promises to the walk.
//! - [`laws`]: an event that is pruned by the marks of a walk over it stands for the simplified event.
#![tactic(auto)]

mod choice;
mod form;
pub mod laws;
mod prune;
mod simplify;
mod test;

pub use prune::prune_event;
pub use simplify::simplify_event;

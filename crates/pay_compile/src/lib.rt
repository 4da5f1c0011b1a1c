//! The compiler as a whole: from a script to a program.
//!
//! [`prepare`] makes a trade of a script, which is the last of its checks: its events in order of date, with variables and legs by number. [`compile`]
//! makes a program of a trade, which a machine runs over the fixings of a scenario.
//!
//! ```text
//! let trade = prepare(alloc, &script)?;
//! let program = compile(alloc, &trade, &Start::Fresh, None, Mode::Crisp)?;
//! ```
//!
//! Proved: a trade's events stand for the script's, or the refusal is the script's first; each run of the program, under fixings within the limit of a
//! fixing, gives the direct meaning of the trade's events; and it evaluates as many nodes as a run of their simplified script. The module [`laws`] proves
//! that the events which are lowered stand for the simplified script.
#![tactic(auto)]

mod compiling;
mod events;
pub mod laws;
mod preparing;
mod refusal;

pub use compiling::{Mode, Start, compile};
pub use preparing::prepare;
pub use refusal::CompileRefusal;

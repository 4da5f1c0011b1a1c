//! The inputs of a request: a script, past fixings and a table of scenarios, each a file that is fetched whole and then checked.
//!
//! [`read_script`], [`read_past`] and [`read_table`] fetch a file of at most 1,048,576, 16,777,216 and 67,108,864 bytes from a depot, and
//! give what it has; or an [`InputStop`], which says that the file is refused, with the [`Refusal`], that it could not be read or is not
//! there, or that there was no memory. [`check_script`] is the check of a script's text alone: its tokens, its grammar, its limits and the
//! dates of its events.
//!
//! Proved: what is accepted, and each refusal, are those of `specs/Inputs.antt`; no file is changed; and no count of read faults rises but
//! that of the file's name. The module [`laws`] proves that a text is accepted exactly where it spells a script, past fixings or a table in
//! the sense of `specs/CheckLaws.antt`, and is refused exactly for its fault there.
#![tactic(auto)]

mod input;
pub mod laws;
mod past;
mod refusal;
mod script;

pub use input::{InputStop, read_past, read_script, read_table};
pub use past::PastFixings;
pub use refusal::Refusal;
pub use script::{CheckStop, check_script};

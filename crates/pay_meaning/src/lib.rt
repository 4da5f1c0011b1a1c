//! The language of scripts as plain data, and what a script means.
//!
//! This is what a reader must believe; everything that reads, runs or reports scripts is proved against it. It is nearly
//! all definitions, and hardly any code:
//!
//! - `specs/Language.antt`: numbers, conditions, statements, bodies, events, items and scripts, with no pointers and no places
//!   in a text.
//! - `specs/Words.antt`: which bytes make a word, which words the language keeps for itself, and which are names.
//! - `specs/Meaning.antt`: the value of a number, the truth of a condition, the effect of statements, and the meaning of
//!   events in order: their payments, and how they end. An event that faults pays nothing and ends its scenario; earlier
//!   payments stand. Also which fixings a run knows: the past ones up to an as-of date, and those of a scenario after it.
//! - `specs/Parts.antt`: the statements, conditions and numbers of a script in the order of the text, and the names in them.
//! - `specs/Events.antt`: the events of a script in order of date, and the date that two of them share.
//! - [`laws`]: what shows that these definitions are the ones meant, each the contract of a function with an empty body.
//!
//! [`FaultKind`] is the only type of the code here: why an event faults.
#![tactic(auto)]

mod fault;
pub mod laws;

pub use fault::FaultKind;

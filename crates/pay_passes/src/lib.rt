//! The first passes of the compiler: variables and legs by number, constants folded, and which variables an `if` changes.
//!
//! [`index`] makes a [`Trade`] of a script and its events: each variable and each leg is its number by first appearance in the script's text, and
//! `period()` and `days()` are the event's own as literals. [`fold_constants`] replaces each operator of literals by its value, unless it faults, and
//! each comparison of two literals by its truth. [`affected`] gives the variables that steps assign, and [`fill_changes`] sets those of its
//! branches in each `if`.
//!
//! Proved: what a trade's events stand for is the script's events; folding keeps every value, truth, effect and fault, in every scenario; the
//! affected variables are exactly those that are assigned. The module [`laws`] proves that the definitions are the ones meant.
#![tactic(auto)]

mod changes;
mod fold;
pub mod laws;
mod names;
mod numbered;
mod numbering;
mod trade;

pub use changes::{affected, fill_changes};
pub use fold::fold_constants;
pub use numbering::index;
pub use trade::{IndexRefusal, Trade};

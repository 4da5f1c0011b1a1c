//! Tests of the whole tool: inputs that are refused, why, and with which line.
//!
//! They stand in a crate of their own, since a crate with tests is proved twice, and apart from the other tests of the tool, so that all are proved
//! side by side.
#![tactic(auto)]

#[cfg(test)]
mod lines;
#[cfg(test)]
mod refusals;

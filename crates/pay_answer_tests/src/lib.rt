//! Tests of the whole tool: what a run, a run under past fixings and the other commands write.
//!
//! They stand in a crate of their own, since a crate with tests is proved twice, and apart from the other tests of the tool, so that all are proved
//! side by side.
#![tactic(auto)]

#[cfg(test)]
mod answers;
#[cfg(test)]
mod past;
#[cfg(test)]
mod reports;

//! Tests of the whole tool: what comes of the words that it is called with, and of files and sinks that fail.
//!
//! They stand in a crate of their own, since a crate with tests is proved twice, and apart from the other tests of the tool, so that all are proved
//! side by side.
#![tactic(auto)]

#[cfg(test)]
mod fetches;
#[cfg(test)]
mod puts;
#[cfg(test)]
mod words;

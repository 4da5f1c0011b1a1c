//! Tests of the compiler, the machine and the report, by their public calls: scripts that are compiled and run, and what comes of them.
//!
//! They stand in a crate of their own, since a crate with tests is proved twice, and apart from the other tests, so that all are proved side by side.
#![tactic(auto)]

#[cfg(test)]
mod program;
#[cfg(test)]
mod report;
#[cfg(test)]
mod runs;

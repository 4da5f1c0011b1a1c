//! Tests of domains, by their public calls: what no command of the program shows.
//!
//! They stand in a crate of their own, since a crate with tests is proved twice.
#![tactic(auto)]

#[cfg(test)]
mod domains;

//! Tests of tokens, tables and trees, by their public calls: a few values that a reader can check by hand beside what is proved.
//!
//! They stand in a crate of their own, since a crate with tests is proved twice.
#![tactic(auto)]

#[cfg(test)]
mod lexer;
#[cfg(test)]
mod tables;
#[cfg(test)]
mod tree;

//! Tests of the parser and of the passes, by their public calls: texts of scripts, and what comes of them.
//!
//! They stand in a crate of their own, since a crate with tests is proved twice, and apart from those of `pay_tests`, so that both are proved side by
//! side.
#![tactic(auto)]

#[cfg(test)]
mod parser;
#[cfg(test)]
mod passes;
#[cfg(test)]
mod roll;
#[cfg(test)]
mod script;
#[cfg(test)]
mod text;
#[cfg(test)]
mod tree;

//! The canonical text of a script.
//!
//! [`print_script`] writes it; what it is, line by line, is said in `specs/Text.antt`.
#![tactic(auto)]

mod print;

pub use print::print_script;

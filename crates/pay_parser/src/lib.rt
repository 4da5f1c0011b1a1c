//! The parser: the script that tokens spell.
//!
//! [`parse`] takes the tokens of a text and gives the tree of the script that they spell, or says why there is none: a token is too large, too
//! many brackets, ifs or operators are open, or the tokens are no script.
//!
//! ```
//! let tokens = lex(alloc, b"@2024-06-28 a pays -(1 + 2) * x - 3")?;
//! let script = parse(alloc, &tokens)?;
//! ```
//!
//! Here the script has one item, on 2024-06-28, with one statement: the leg `a` is paid `((-(1 + 2) * x) - 3)`. Factors are grouped before terms,
//! a minus sign before both, and each of them to the left, so `a - b - c` is `(a - b) - c` and `min(a, b, c)` is `min(min(a, b), c)`. In a
//! condition `not` is grouped before `and`, and `and` before `or`, and both of these to the left. A bracket that stands where a comparison may
//! begin can be that of a condition or that of a number: what stands in it shows which, so no token is read twice.
//!
//! A schedule, as `schedule from @2024-01-31 to @2024-07-31 every 1 m following do a pays 1 end`, is an item beside those on one date. Its terms are
//! read word by word: the count of its step is a number token without a point, and its unit is one of the names `d`, `w`, `m` and `y`, which stand
//! for variables and legs everywhere else. Its statements are read as those of any item, up to `end`.
//!
//! What tokens spell is said by the grammar of `pay_grammar`. The tokens are read by the steps of `pay_steps`, each of them once, and the limits of
//! `pay_limits`, which bound how deep a tree can be, are asked before any part of a tree is made. Which of these answers comes is said in
//! `specs/Parsing.antt`.
#![tactic(auto)]

mod parse_fault;
mod parser;

pub use parse_fault::ParseFault;
pub use parser::parse;

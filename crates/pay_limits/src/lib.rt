//! The limits that are counted on tokens: [`first_too_large`] gives the place of the first token that is too large, and [`first_too_deep`] that of
//! the first with which too many brackets or ifs are open, or too many operators stand in a stretch.
//!
//! ```
//! let tokens = lex(alloc, b"@2024-06-28 a pays 100000000000000.0001")?;
//! assert_eq!(first_too_large(&tokens), Some(19));
//! assert_eq!(first_too_deep(&tokens), None);
//! ```
//!
//! Each token is looked at once, and the limits are asked of any tokens, whether they spell a script or not. They bound how deep the tree of a
//! script can be, so they are asked before any part of one is made. What they are stands in `specs/TokenLimits.antt` of `pay_grammar`.
#![tactic(auto)]

mod token_limits;

pub use token_limits::{first_too_deep, first_too_large};

//! The tokens of a script's text: [`lex`] cuts the bytes of a script into dates, numbers, words, keywords and signs, each
//! with its place, or tells the first place where none begins.
//!
//! At each place a blank or a comment is dropped, and elsewhere the longest token is taken that begins there. So the text
//! `a2 <=1.5//x` has three tokens, with the places of their first byte and of the byte after their last:
//!
//! | token | start | end |
//! |---|---|---|
//! | `Word`, with the letters `a2` | 0 | 2 |
//! | `Sign(Sign::LessEq)` | 3 | 5 |
//! | `Number`, with the digits `1.5` | 5 | 8 |
//!
//! and `a2 <=1.//x` has none: `1` is a number, but nothing begins with the point, and `lex` answers
//! `LexFault::BadByte { at: 6 }`.
//!
//! Which bytes spell which token stands in `specs/Tokens`, which text spells which tokens in `specs/Spelling`, and a
//! function that reads the tokens of a text in `specs/Lexing`. The [`laws`] tie the two together: a text spells one list
//! of tokens or has one first place where nothing begins, and reading it from the front finds which. Where places are not
//! of interest, as in a grammar, `kinds_in` reads what the tokens are without them.
#![tactic(auto)]

mod fault;
mod keyword;
pub mod laws;
mod lexer;
mod token;

pub use fault::LexFault;
pub use lexer::lex;
pub use token::{Digits, Key, Letters, Sign, Token, TokenKind};

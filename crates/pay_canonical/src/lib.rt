//! The law of the canonical text of a script, as `print_script` of `pay_text` writes it.
//!
//! Where a text spells a script within the limits of tokens, the canonical text of that script spells the same script, and no limit of tokens is
//! passed in it; so the same script is read back from it, one token after another. The [`laws`] say so of the definitions: of `script_text` of
//! `pay_text`, the tokens of `pay_lexer`, and the grammar, the reading and the limits of `pay_grammar`. The crate has no code that runs.
//!
//! The canonical text may have more bytes than the text has, and more than a script file may have.
#![tactic(auto)]

pub mod laws;

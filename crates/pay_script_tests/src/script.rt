//! Scripts that are read from texts.

use pay_lexer::lex;
use pay_parser::{ParseFault, parse};
use pay_tree::Script;
use std::alloc::Global;
use std::test::Fail;

/// The script that a text spells, or the fault of its tokens.
pub fn script_of(alloc: Global, text: &[u8]) -> Result<Result<Script, ParseFault>, Fail> {
    if text.len() > 1_048_576 {
        return Err(Fail::new("a long text"));
    }
    let tokens = lex(alloc, text)?;
    Ok(parse(alloc, &tokens))
}

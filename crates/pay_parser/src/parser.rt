//! The parser: a script is read one token at a time, once no token is too large and none too deep.

ghost use Rattle.std.specs.Prelude.{◌≡◌, ◌≤◌, ◌^◌, Some, None, Ok, length, IfOk, IfErr, IsErrOf};
ghost use Rattle.pay_tree.specs.Views as tree_of;
ghost use Rattle.pay_grammar.specs.Reading.{script_in};
ghost use Rattle.pay_place.specs.ReadingViews as view;
ghost use Rattle.pay_grammar.specs.Grammar.{SpellsScript, SpellsNoScript};
ghost use Rattle.pay_grammar.specs.TokenLimits.{kinds, IsWithin};
ghost use Rattle.pay_parser.specs.Parsing.{parsed, IsFaultOf};

use crate::parse_fault::ParseFault;
use pay_lexer::Token;
use pay_limits::{first_too_deep, first_too_large};
use pay_steps::{StepFault, finish, start, step};
use pay_tree::{Item, Script};
use std::alloc::Global;

/// The items of the script that the tokens are.
///
/// Where there is no memory at a token, those after it aren't looked at, so one of them may be one that can't stand there.
#[tactic(auto, unfolding(pay_grammar::specs::Reading::script_in))]
fn read_items(alloc: Global, tokens: &[Token]) -> Result<Vec<Item>, StepFault>
    ensures spelled { IfOk result (λ items. script_in (kinds tokens.now) ≡ Some (view.items items)) }
    ensures refused { IsErrOf result StepFault.NotScript → script_in (kinds tokens.now) ≡ None }
{
    let mut state = start(alloc);
    for token in tokens {
        state = step(alloc, state, &token.kind)?;
    }
    finish(alloc, state)
}

/// The script that the tokens of a text spell, read from the front to the end, each token once.
///
/// The terms of a schedule are kept as they are written: whether its first date lies before its last, or its step is one that can be taken, isn't
/// asked here.
///
/// # Errors
///
/// The first of these that there is a cause for. `TooLarge` where a number token has more than 40 bytes or lies beyond the limit of a number, or a
/// name has more than 64 bytes, with the place of the first such token. `TooDeep` where more than 100 brackets or 96 ifs are open or a stretch of
/// tokens has more than 96 operators, with the place of the first token at which one of them is passed. `NotScript` where the tokens spell no
/// script. `NoMemory` where none of the limits is passed and there was no memory for the tree.
#[tactic(auto, unfolding(crate::specs::Parsing::parsed), using(pay_grammar::proofs::ScriptSound::script_is_spelled, pay_grammar::proofs::ScriptComplete::spells_none))]
pub fn parse(alloc: Global, tokens: &[Token]) -> Result<Script, ParseFault>
    requires { length tokens.now ≤ 2 ^ 20 }
    ensures spelled { IfOk result (λ tree. SpellsScript (kinds tokens.now) (tree_of.script tree)) }
    ensures within { IfOk result (λ tree. IsWithin tokens.now) }
    ensures not_script { IsErrOf result ParseFault.NotScript → SpellsNoScript (kinds tokens.now) }
    ensures read { IfOk result (λ tree. parsed tokens.now ≡ Ok (tree_of.script tree)) }
    ensures refused { IfErr result (IsFaultOf tokens.now) }
{
    if let Some(at) = first_too_large(tokens) {
        return Err(ParseFault::TooLarge { at });
    }
    if let Some(at) = first_too_deep(tokens) {
        return Err(ParseFault::TooDeep { at });
    }
    let items = read_items(alloc, tokens)?;
    Ok(Script { items })
}

//! A script's text, checked whole: its tokens, its grammar, its limits and the dates of its events.

ghost use Rattle.std.specs.Prelude.{◌≡◌, ◌<◌, ◌≤◌, ◌^◌, IfOk, IfErr, length};
ghost use Rattle.pay_lexer.specs.declared.fault.LexFault.{LexFault};
ghost use Rattle.pay_parser.specs.Parsing.{parsed};
ghost use Rattle.pay_passes.specs.Trades.{IsGood};
ghost use Rattle.pay_tree.specs.Views as view;
ghost use Rattle.pay_inputs.specs.Inputs.{checked_script, parsed_input, prepared, good};
ghost use Rattle.pay_inputs.specs.OwnTerms.{input_at_terms};
ghost use Rattle.pay_inputs.specs.Stops.{Stops, StopsScript};
ghost use Rattle.pay_inputs.specs.TradeViews.{trade};

use crate::refusal::Refusal;
use pay_compile::{CompileRefusal, prepare};
use pay_lexer::{LexFault, Token, lex};
use pay_parser::{ParseFault, parse};
use pay_passes::Trade;
use pay_tree::Script;
use std::alloc::Global;

/// Why a text gave no value: it is refused, or there was no memory.
#[derive(Clone, Copy, PartialEq, Eq, Debug)]
pub enum CheckStop {
    /// The text is refused.
    Refused(Refusal),
    /// There was no memory.
    NoMemory,
}

impl From<LexFault> for CheckStop {
    ghost use Rattle.std.specs.Prelude.{◌≡◌};
    ghost use Rattle.pay_inputs.specs.Stops.{stop_of_lexing};

    ghost from_gives = { λ fault stop. stop ≡ stop_of_lexing fault };

    fn from(fault: LexFault) -> CheckStop {
        match fault {
            LexFault::BadByte { at } => CheckStop::Refused(Refusal::BadByte { at }),
            LexFault::NoMemory => CheckStop::NoMemory,
        }
    }
}

impl From<ParseFault> for CheckStop {
    ghost use Rattle.std.specs.Prelude.{◌≡◌};
    ghost use Rattle.pay_inputs.specs.Stops.{stop_of_parsing};

    ghost from_gives = { λ fault stop. stop ≡ stop_of_parsing fault };

    fn from(fault: ParseFault) -> CheckStop {
        match fault {
            ParseFault::TooLarge { at } => CheckStop::Refused(Refusal::TooLarge { at }),
            ParseFault::TooDeep { at } => CheckStop::Refused(Refusal::TooDeep { at }),
            ParseFault::NotScript => CheckStop::Refused(Refusal::NotScript),
            ParseFault::NoMemory => CheckStop::NoMemory,
        }
    }
}

impl From<CompileRefusal> for CheckStop {
    ghost use Rattle.std.specs.Prelude.{◌≡◌};
    ghost use Rattle.pay_inputs.specs.Stops.{stop_of_compiling};

    ghost from_gives = { λ refusal stop. stop ≡ stop_of_compiling refusal };

    fn from(refusal: CompileRefusal) -> CheckStop {
        match refusal {
            CompileRefusal::BadSchedule { item } => CheckStop::Refused(Refusal::BadSchedule {
                item,
            }),
            CompileRefusal::SameDate { date } => CheckStop::Refused(Refusal::SameDate { date }),
            CompileRefusal::TooMany { what, limit } => CheckStop::Refused(Refusal::TooMany {
                what,
                limit,
            }),
            CompileRefusal::NoMemory => CheckStop::NoMemory,
        }
    }
}

/// What the script of a text has.
///
/// `text` has at most 2^20 bytes.
///
/// # Errors
///
/// `Refused` with the first that holds of these: `BadByte` with the first place where neither a blank, a comment nor a
/// token begins; `TooLarge`, and then `TooDeep`, with the place of the first token that passes a limit; `NotScript` where
/// the tokens spell no script; `BadSchedule` with the first item whose schedule is bad; `TooMany` events; `SameDate` with the
/// earliest date that two of them have; `TooMany` nodes, payments, variables or legs. `NoMemory` where there was no memory.
#[tactic(auto, unfolding(crate::specs::Inputs::checked_script))]
pub fn check_script(alloc: Global, text: &[u8]) -> Result<Trade, CheckStop>
    requires { length text.now ≤ 2 ^ 20 }
    ensures accepted { IfOk result (λ found. input_at_terms (checked_script text.now) ≡ good (trade found)) }
    ensures good { IfOk result IsGood }
    ensures refused { IfErr result (StopsScript text.now) }
{
    let tokens = lex(alloc, text)?;
    check_tokens(alloc, tokens.as_slice())
}

/// What the script has that tokens spell.
#[tactic(auto, using(crate::proofs::Checks::parsing_stops, crate::proofs::ItemLemmas::few_items))]
fn check_tokens(alloc: Global, tokens: &[Token]) -> Result<Trade, CheckStop>
    requires { length tokens.now ≤ 2 ^ 20 }
    ensures accepted { IfOk result (λ found. input_at_terms (parsed_input (parsed tokens.now)) ≡ good (trade found)) }
    ensures good { IfOk result IsGood }
    ensures refused { IfErr result (Stops (parsed_input (parsed tokens.now))) }
{
    let tree = parse(alloc, tokens)?;
    prepare_script(alloc, &tree)
}

/// What a script has.
fn prepare_script(alloc: Global, tree: &Script) -> Result<Trade, CheckStop>
    requires { length tree.now.items.items < 2 ^ 32 }
    ensures accepted { IfOk result (λ found. input_at_terms (prepared (view.script tree.now)) ≡ good (trade found)) }
    ensures good { IfOk result IsGood }
    ensures refused { IfErr result (Stops (prepared (view.script tree.now))) }
{
    let found = prepare(alloc, tree)?;
    Ok(found)
}

//! Laws of the grammar: what is read is spelled, what is spelled is read, and tokens spell one script at most.

ghost use Rattle.pay_grammar.specs.GrammarLaws.{ScriptIsSpelled, SpelledScriptIsRead, OneScript};

/// The script that is read from tokens is spelled by them.
pub fn script_is_spelled()
    ensures { ScriptIsSpelled }
{}

/// The script that tokens spell is read from them.
pub fn spelled_script_is_read()
    ensures { SpelledScriptIsRead }
{}

/// No tokens spell two scripts.
pub fn one_script()
    ensures { OneScript }
{}

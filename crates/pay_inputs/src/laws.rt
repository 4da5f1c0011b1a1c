//! Laws that show that the definitions are the ones meant.

ghost use Rattle.pay_inputs.specs.CheckLaws.{ScriptAcceptanceHasCause, ScriptRefusalHasCause, TableAcceptanceHasCause, TableRefusalHasCause};
ghost use Rattle.pay_inputs.specs.CheckLaws.{PastAcceptanceHasCause, PastRefusalHasCause};

/// A script's text is accepted exactly where it spells a script none of whose schedules is bad, that keeps its limits, and no two
/// of whose events have one date, and gives what that script has.
pub fn script_acceptance_has_cause()
    ensures { ScriptAcceptanceHasCause }
{}

/// A script's text is refused exactly for its fault: the first place where nothing begins, the first token that passes a
/// limit, no script, the first bad schedule, too many events, the earliest date that two of them have, or too many parts or names.
pub fn script_refusal_has_cause()
    ensures { ScriptRefusalHasCause }
{}

/// A table's text is accepted exactly where its records spell a table, and gives that table.
pub fn table_acceptance_has_cause()
    ensures { TableAcceptanceHasCause }
{}

/// A table's text is refused exactly for its first fault.
pub fn table_refusal_has_cause()
    ensures { TableRefusalHasCause }
{}

/// A text of past fixings is accepted exactly where its records spell them, and gives them in the order of the text.
pub fn past_acceptance_has_cause()
    ensures { PastAcceptanceHasCause }
{}

/// A text of past fixings is refused exactly for its first fault.
pub fn past_refusal_has_cause()
    ensures { PastRefusalHasCause }
{}

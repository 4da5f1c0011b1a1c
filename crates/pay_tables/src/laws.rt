//! Laws that show that records are read as a table, or as past fixings, exactly where they spell it, and refused exactly for their fault.

ghost use Rattle.pay_tables.specs.Laws.{OrderChangesNoFixing, PastIsSpelled, PastRefusalHasCause, TableIsSpelled, TableRefusalHasCause};

/// Records are read as a table exactly where they spell it, and then it is good.
pub fn table_is_spelled()
    ensures { TableIsSpelled }
{}

/// Records are refused as a table exactly for their fault.
pub fn table_refusal_has_cause()
    ensures { TableRefusalHasCause }
{}

/// Records are read as past fixings exactly where they spell them.
pub fn past_is_spelled()
    ensures { PastIsSpelled }
{}

/// Records are refused as past fixings exactly for their fault.
pub fn past_refusal_has_cause()
    ensures { PastRefusalHasCause }
{}

/// Past fixings in order of date are the same fixings.
pub fn order_changes_no_fixing()
    ensures { OrderChangesNoFixing }
{}

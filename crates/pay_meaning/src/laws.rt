//! Laws of the meaning, of its conditions, and of events in order. Each function is empty: what it ensures is the law.

ghost use Rattle.pay_meaning.specs.Laws.{MeaningOfParts, MeaningReadsOwnDates, EffectReadsOwnVariables, ComparisonIsTrueWhereItHolds};
ghost use Rattle.pay_meaning.specs.Laws.{TruthOfSides, ChoiceIsOneBranch, LastStatementFollows, OrderIsUnique, SharedDateIsEarliest};
ghost use Rattle.pay_meaning.specs.Laws.{FixingIsPastOrTheRows};

/// The meaning of a list of events is that of its front, and then that of the rest from the front's last variables.
pub fn meaning_of_parts()
    ensures { MeaningOfParts }
{}

/// A meaning reads the fixings at its events' dates alone.
pub fn meaning_reads_own_dates()
    ensures { MeaningReadsOwnDates }
{}

/// The fixing of a run is the past one at a date that isn't after the as-of date, and the row's at each later date.
pub fn fixing_is_past_or_the_rows()
    ensures { FixingIsPastOrTheRows }
{}

/// An effect reads no more than its moment and the variables that its statements name, and changes no others.
pub fn effect_reads_own_variables()
    ensures { EffectReadsOwnVariables }
{}

/// A comparison of two raws is true exactly where what it says of them holds.
pub fn comparison_is_true_where_it_holds()
    ensures { ComparisonIsTrueWhereItHolds }
{}

/// `and` and `or` ask their right side only where the left one leaves them open, and `not` of one is the other under `not`s.
pub fn truth_of_sides()
    ensures { TruthOfSides }
{}

/// An `if` is the branch that its condition chooses, or the fault of its condition.
pub fn choice_is_one_branch()
    ensures { ChoiceIsOneBranch }
{}

/// A statement after others runs from the variables that they leave, and its payments come after theirs.
pub fn last_statement_follows()
    ensures { LastStatementFollows }
{}

/// Events in order rise by date and are at each date those of the list, in its order; and there is one such order.
pub fn order_is_unique()
    ensures { OrderIsUnique }
{}

/// The shared date that is found is the earliest that two events have, and where none is found no two share one.
pub fn shared_date_is_earliest()
    ensures { SharedDateIsEarliest }
{}
